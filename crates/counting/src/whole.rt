// Counting a whole recording.
ghost use Rattle.std.specs.Prelude.{◌≡◌, ◌<◌, ◌≤◌, false, length, is_some, IfSome, is_ok, IfOk, Ok, Err};
ghost use Rattle.std.specs.Result.{result_map_both};
ghost use Rattle.census.specs.Refusals.{may_keep, needed};
ghost use Rattle.census.specs.declared.refusal.CensusRefusal.TheVariants.{ShortTable};
ghost use Rattle.counting.specs.Under.{Under};
ghost use Rattle.counting.specs.Whole.{may_count, CountedUnder, CountedAs};

use super::counted::Counted;
use super::passes::show_calls;
use census::{Census, PageRecord};
use recordings::{Recording, RunFault};
use rules::{Lottery, Oldest, TopRule};

// Opens a census by a recording's header, under a rule, and shows it the recording's calls; none where a table is too short.
fn count_under<R: TopRule + Drop>(
    rule: R,
    recording: &Recording,
    table: &mut [PageRecord],
    counts: &mut [u32],
) -> Option<Census<R>>
    ensures none { is_some result ≡ false → (may_keep recording.now.header.pages (length table.old) (length counts.old) ≡ Err ShortTable) × (table.new ≡ table.old) × (counts.new ≡ counts.old) }
    ensures some { IfSome result (λ c. Under R.TopRule.told R.TopRule.slot R.TopRule.next (R.TopRule.told rule) recording.now table.old counts.old c table.new counts.new) }
{
    let header = recording.header();
    // Written out, since through `ok()?` what the opening promises of the census does not come.
    let Ok(mut census) = Census::open(rule, header.pages as usize, header.top, table, counts) else {
        return None;
    };
    show_calls(&mut census, table, counts, recording.calls());
    Some(census)
}

// Counts a recording under the rule that its header names; none where a table is too short.
fn count_checked(
    recording: &Recording,
    table: &mut [PageRecord],
    counts: &mut [u32],
) -> Option<Counted>
    ensures none { is_some result ≡ false → (may_keep recording.now.header.pages (length table.old) (length counts.old) ≡ Err ShortTable) × (table.new ≡ table.old) × (counts.new ≡ counts.old) }
    ensures some { IfSome result (λ c. CountedUnder recording.now table.old counts.old c table.new counts.new) }
{
    let header = recording.header();
    // By the letter, of which a checked header has no third.
    if header.rule == Oldest::LETTER {
        count_under(Oldest::new(), recording, table, counts).map(Counted::Oldest)
    } else {
        let rule = Lottery::new(header.seed);
        count_under(rule, recording, table, counts).map(Counted::Lottery)
    }
}

// Counts a recording in the caller's tables: opens a census by its header and shows it every call.
// The recording is checked to its end first, and a fault leaves the tables as they were.
pub fn count(
    bytes: &[u8],
    table: &mut [PageRecord],
    counts: &mut [u32],
) -> Result<Counted, RunFault>
    ensures answer { result_map_both (λ _. tt) (λ e. e) result ≡ may_count bytes.now (length table.old) (length counts.old) }
    ensures refused { is_ok result ≡ false → (table.new ≡ table.old) × (counts.new ≡ counts.old) }
    ensures counted { IfOk result (λ c. CountedAs bytes.now table.old counts.old c table.new counts.new) }
{
    let recording = Recording::parse(bytes)?;
    count_checked(&recording, table, counts).ok_or(RunFault::TableShort)
}
