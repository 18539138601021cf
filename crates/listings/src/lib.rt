// The listing of a recording: the row of every bottom size, or the one fault that makes the recording unfit.
#![tactic(auto)]

ghost use Rattle.std.specs.Prelude.{◌≡◌, ◌≤◌, length, IfOk, Ok, Some, vec_len, string_bytes};
ghost use Rattle.model.specs.Ledger.{Ledger};
ghost use Rattle.census.specs.Refusals.{may_keep};
ghost use Rattle.counting.specs.Counted.{pages_in, slots_in, KeepsIn};
ghost use Rattle.listings.specs.Text.{row_text, rows_text, listing_text};

use census::PageRecord;
use counting::Counted;
use model::Row;
use recordings::Told;
use std::alloc::{AllocError, Global};
use std::fmt;

// The longest tables that a census needs: a record for each page, and three columns with one place more.
const MOST_PAGES: usize = 512;

const MOST_PLACES: usize = 3 * (MOST_PAGES + 1);

// The heading of the rows.
const HEADING: &str = "   l    fetches     faults   reclaims  evictions      saves rate\n";

// The tables that a recording is counted in.
#[derive(Drop)]
struct Tables {
    pages: Vec<PageRecord>,
    counts: Vec<u32>,
}

impl Tables {
    // Tables that are long enough for every recording.
    fn new(heap: Global) -> Result<Tables, AllocError>
        ensures { IfOk result (λ t. (vec_len t.pages ≡ 512) × (vec_len t.counts ≡ 1539)) }
    {
        let pages = vec![in heap; PageRecord::unused(); MOST_PAGES]?;
        let counts = vec![in heap; 0; MOST_PLACES]?;
        Ok(Tables { pages, counts })
    }
}

// A row as it is printed: the bottom size, fetches, faults, reclaims, evictions, saves and the rate.
#[derive(Clone, Copy)]
struct RowText {
    l: usize,
    row: Row,
}

impl fmt::Display for RowText {
    ghost output = { λ text. Some (row_text text.l text.row) };

    fn fmt<W: fmt::Write>(&self, f: &mut fmt::Formatter<W>) -> fmt::Result {
        let row = self.row;
        write!(
            f,
            "{:>4}{:>11}{:>11}{:>11}{:>11}{:>11}{:>5}",
            self.l, row.fetches, row.faults, row.reclaims, row.evictions, row.saves, row.rate
        )
    }
}

// The heading, and the rows of every bottom size.
fn rows(
    heap: Global,
    counted: &Counted,
    table: &[PageRecord],
    counts: &[u32],
) -> Result<String, AllocError>
    requires { may_keep (pages_in counted.now) (length table.now) (length counts.now) ≡ Ok tt }
    ensures { (b : Ledger) → KeepsIn counted.now table.now counts.now b → IfOk result (λ text. string_bytes text ≡ rows_text (pages_in counted.now) (slots_in counted.now) b) }
{
    // Room for each line, which is as long as the heading where each number fits its columns.
    let room = HEADING
        .len()
        .saturating_mul(counted.pages().saturating_add(2));
    let mut text = String::with_capacity(heap, room)?;
    text.push_str(HEADING)?;
    for l in 0..=counted.pages() {
        let row = counted.row(table, counts, l).unwrap();
        writeln!(text, "{}", RowText { l, row })?;
    }
    Ok(text)
}

// The listing of a recording, counted in tables that are long enough for every recording. They come as slices: once a `Vec` is
// lent to be written, its type's length is to be shown again, and a row wants both while the counted recording is held.
fn listing_in(
    heap: Global,
    recording: &[u8],
    table: &mut [PageRecord],
    counts: &mut [u32],
) -> Result<String, AllocError>
    requires records { 512 ≤ length table.old }
    requires places { 1539 ≤ length counts.old }
    ensures { IfOk result (λ text. string_bytes text ≡ listing_text recording.now) }
{
    match counting::count(recording, table, counts) {
        Ok(counted) => rows(heap, &counted, table, counts),
        Err(fault) => format!(in heap; "{}\n", Told::from(fault)),
    }
}

// The listing of a recording.
pub fn listing(heap: Global, recording: &[u8]) -> Result<String, AllocError>
    ensures { IfOk result (λ text. string_bytes text ≡ listing_text recording.now) }
{
    let mut tables = Tables::new(heap)?;
    listing_in(heap, recording, &mut tables.pages, &mut tables.counts)
}
