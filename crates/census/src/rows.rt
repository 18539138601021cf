// Rows: what a pager of one bottom size would have done.
ghost use Rattle.std.specs.Prelude.{◌≡◌, ℕ, ◌+◌, ◌≤◌, List, length, sum, drop, IfOk, None, Ok, Err, MatchResult, slice_range, slice_index_or};
ghost use Rattle.lists.specs.Weights.{one, total, weigh};
ghost use Rattle.links.specs.Chain.{Chain};
ghost use Rattle.model.specs.Windows.{over, shallow};
ghost use Rattle.model.specs.Ledger.{Ledger};
ghost use Rattle.model.specs.Rows.{wrapped, rate_of, row_reclaims, row_saves, row_of};
ghost use Rattle.census.specs.Views.{nexts, marks};
ghost use Rattle.census.specs.Refusals.{may_ask, needed};
ghost use Rattle.census.specs.Columns.{ended_from, uses_from};
ghost use Rattle.census.specs.Misses.{row_misses};
ghost use Rattle.census.specs.Means.{Means, Keeps};

use super::counts::{tally, uses_from};
use super::page::PageRecord;
use super::refusal::CensusRefusal;
use super::state::Census;
use links::Linked;
use model::{Row, UseKind};
use rules::TopRule;

// Faults for each thousand calls, 0 without a call: the listing has a number there.
fn rate_of(faults: u32, calls: u32) -> u64
    ensures { result ≡ rate_of faults calls }
{
    if calls == 0 {
        return 0;
    }
    u64::from(faults) * 1000 / u64::from(calls)
}

// How many windows are open with a stored mark above l.
fn marked_above(table: &[PageRecord], l: usize) -> usize
    ensures bound { result ≤ length table.now }
    ensures marked { result ≡ total (length table.now) (λ q. over l (slice_index_or (marks table.now) q None)) }
{
    table
        .iter()
        .filter(|record| record.mark.is_some_and(|mark| l < mark))
        .count()
}

// How many windows with a stored mark of at most l belong to pages that are now behind the first l of the bottom.
fn sunk_below(table: &[PageRecord], newest: Option<usize>, l: usize) -> usize
    ensures bound { result ≤ length table.now }
    ensures sunk { (bs : List ℕ) → Chain (nexts table.now) (length table.now) newest bs → length bs ≤ length table.now → result ≡ weigh (λ q. one (shallow l (slice_index_or (marks table.now) q None))) (drop l bs) }
{
    let mut here = newest;
    let mut sunk = 0;
    // A walk: a record tells only the next, so the loop counts the steps and the links lead.
    for ahead in 0..table.len() {
        let Some(p) = here else {
            break;
        };
        let Some(record) = table.get(p) else {
            break;
        };
        if l <= ahead && record.mark.is_some_and(|mark| mark <= l) {
            sunk += 1;
        }
        here = record.links().next;
    }
    sunk
}

// A row that is asked for: of a census, in tables that are as long as it needs, with at most l pages in the bottom.
#[derive(Drop)]
struct Asked<'a, R> {
    census: &'a Census<R>,
    table: &'a [PageRecord],
    counts: &'a [u32],
    l: usize,
    ghost low: { l ≤ census.now.pages },
    ghost long: { length table.now ≡ census.now.pages },
    ghost wide: { length counts.now ≡ needed census.now.pages },
}

impl<R: TopRule> Asked<'_, R> {
    // The uses of a kind that found their page, counted by its depth.
    fn uses(&self, kind: UseKind) -> &[u32]
        ensures { result.now ≡ slice_range self.now.counts.now (uses_from kind self.now.census.now.pages) (uses_from kind self.now.census.now.pages + (self.now.census.now.pages + 1)) }
    {
        let start = uses_from(kind, self.census.pages);
        &self.counts[start..start + self.census.pages + 1]
    }

    // The windows that a write ended, counted by their mark.
    fn ended(&self) -> &[u32]
        ensures { result.now ≡ slice_range self.now.counts.now (ended_from self.now.census.now.pages) (ended_from self.now.census.now.pages + (self.now.census.now.pages + 1)) }
    {
        &self.counts[2 * (self.census.pages + 1)..]
    }

    // New uses of a kind, and its uses at depths above l.
    fn misses(&self, kind: UseKind) -> u32
        ensures { (b : Ledger) → Means R.TopRule.told self.now.census.now self.now.table.now self.now.counts.now b → result ≡ wrapped (row_misses kind self.now.l b) }
    {
        let new = match kind {
            UseKind::Read => self.census.new_reads,
            UseKind::Write => self.census.new_writes,
        };
        new.wrapping_add(tally(&self.uses(kind)[self.l + 1..]))
    }

    // Uses of either kind at depths from 1 to l.
    fn reclaims(&self) -> u32
        ensures { (b : Ledger) → Means R.TopRule.told self.now.census.now self.now.table.now self.now.counts.now b → result ≡ wrapped (row_reclaims self.now.l b) }
    {
        let reads = tally(&self.uses(UseKind::Read)[1..=self.l]);
        reads.wrapping_add(tally(&self.uses(UseKind::Write)[1..=self.l]))
    }

    // Windows ended by settles, and windows with a mark above l, ended by a write or still open.
    fn saves(&self) -> u32
        ensures { (b : Ledger) → Means R.TopRule.told self.now.census.now self.now.table.now self.now.counts.now b → result ≡ wrapped (row_saves self.now.census.now.pages self.now.l b) }
    {
        let ended = tally(&self.ended()[self.l + 1..]);
        let marked = marked_above(self.table, self.l) as u32;
        let sunk = sunk_below(self.table, self.census.parts.newest(), self.l) as u32;
        self.census
            .settled
            .wrapping_add(ended)
            .wrapping_add(marked)
            .wrapping_add(sunk)
    }

    // The row.
    fn row(&self) -> Row
        ensures { (b : Ledger) → Means R.TopRule.told self.now.census.now self.now.table.now self.now.counts.now b → result ≡ row_of self.now.census.now.pages self.now.census.now.parts.slots self.now.l b }
    {
        let census = self.census;
        let fetches = self.misses(UseKind::Read);
        let faults = fetches.wrapping_add(self.misses(UseKind::Write));
        let used = census.new_reads.wrapping_add(census.new_writes);
        let held = used.min(census.parts.slots() + self.l as u32);
        Row {
            fetches,
            faults,
            reclaims: self.reclaims(),
            evictions: faults.wrapping_sub(held),
            saves: self.saves(),
            rate: rate_of(faults, census.calls),
        }
    }
}

impl<R: TopRule> Census<R> {
    // Row l: what a pager whose bottom has at most l pages would have done over the calls shown.
    pub fn row(&self, table: &[PageRecord], counts: &[u32], l: usize) -> Result<Row, CensusRefusal>
        ensures answer { MatchResult result (λ _. may_ask self.now.pages (length table.now) (length counts.now) l ≡ Ok tt) (λ e. may_ask self.now.pages (length table.now) (length counts.now) l ≡ Err e) }
        ensures row { (b : Ledger) → Keeps R.TopRule.told self.now table.now counts.now b → IfOk result (λ row. row ≡ row_of self.now.pages self.now.parts.slots l b) }
    {
        self.may_ask(table, counts, l)?;
        let asked = Asked {
            census: self,
            table: &table[..self.pages],
            counts: &counts[..3 * (self.pages + 1)],
            l,
        };
        Ok(asked.row())
    }
}
