// Opening a census.
ghost use Rattle.std.specs.Prelude.{◌≡◌, ℕ, ◌<◌, ◌≤◌, false, ◌++◌, length, drop, is_ok, IfOk, Ok, Err, MatchResult};
ghost use Rattle.model.specs.Ledger.{unseen};
ghost use Rattle.census.specs.Refusals.{may_open, needed};
ghost use Rattle.census.specs.Means.{Keeps};

use super::checks::may_open;
use super::page::PageRecord;
use super::refusal::CensusRefusal;
use super::state::Census;
use order::TwoParts;
use rules::TopRule;

impl<R: TopRule + Drop> Census<R> {
    // A census of `pages` pages under a top of `slots` slots and a rule, in the caller's page table and count table.
    // The records and places that it needs are cleared; the rest of longer tables stays as it is.
    pub fn open(
        rule: R,
        pages: usize,
        slots: u32,
        table: &mut [PageRecord],
        counts: &mut [u32],
    ) -> Result<Census<R>, CensusRefusal>
        ensures answer { MatchResult result (λ _. may_open pages slots (length table.old) (length counts.old) ≡ Ok tt) (λ e. may_open pages slots (length table.old) (length counts.old) ≡ Err e) }
        ensures refused { is_ok result ≡ false → (table.new ≡ table.old) × (counts.new ≡ counts.old) }
        ensures rest { (drop pages table.new ≡ drop pages table.old) × (drop (needed pages) counts.new ≡ drop (needed pages) counts.old) }
        ensures opened { IfOk result (λ c. (c.pages ≡ pages) × (c.parts.slots ≡ slots) × Keeps R.TopRule.told c table.new counts.new (unseen (R.TopRule.told rule))) }
    {
        may_open(pages, slots, table.len(), counts.len())?;
        table[0..pages].fill(PageRecord::unused());
        counts[0..3 * (pages + 1)].fill(0);
        Ok(Census {
            pages,
            parts: TwoParts::make(rule, slots),
            new_reads: 0,
            new_writes: 0,
            settled: 0,
            calls: 0,
        })
    }
}
