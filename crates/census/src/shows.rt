// Showing calls to the census.
ghost use Rattle.std.specs.Prelude.{◌≡◌, ℕ, ◌<◌, ◌≤◌, false, length, drop, is_ok, Ok, Err};
ghost use Rattle.model.specs.Order.{rule_of};
ghost use Rattle.model.specs.Ledger.{Ledger, shown_settle, shown_use, shown};
ghost use Rattle.census.specs.Refusals.{may_keep, may_show, may_take, needed};
ghost use Rattle.census.specs.SameSize.{SameSize};
ghost use Rattle.census.specs.Means.{Means, Keeps};

use super::counts::{note, uses_from};
use super::page::PageRecord;
use super::refusal::CensusRefusal;
use super::state::Census;
use super::windows::end_windows;
use model::{Call, UseKind};
use rules::TopRule;

impl<R: TopRule> Census<R> {
    // A use, in tables that are as long as the census needs.
    fn use_seen(&mut self, table: &mut [PageRecord], counts: &mut [u32], kind: UseKind, page: usize)
        requires { page < length table.old }
        ensures step { (b : Ledger) → Means R.TopRule.told self.old table.old counts.old b → Means R.TopRule.told self.new table.new counts.new (shown_use (rule_of R.TopRule.slot R.TopRule.next) self.old.parts.slots kind page b) }
        ensures same { SameSize self.old self.new }
    {
        let found = self.parts.depth_of(table, page);
        // A page that is new is at no depth: 0 raises no mark.
        let mark = table[page].mark.map(|mark| mark.max(found.unwrap_or(0)));
        self.parts.touch(table, page);
        self.calls = self.calls.wrapping_add(1);
        note(counts, uses_from(kind, self.pages), found);
        let new = u32::from(found.is_none());
        match kind {
            UseKind::Read => {
                self.new_reads = self.new_reads.wrapping_add(new);
                table[page].mark = mark;
            }
            UseKind::Write => {
                self.new_writes = self.new_writes.wrapping_add(new);
                note(counts, 2 * (self.pages + 1), mark);
                table[page].mark = Some(0);
            }
        }
    }

    // Shows the census a use that a pager accepted.
    pub fn show_use(
        &mut self,
        table: &mut [PageRecord],
        counts: &mut [u32],
        kind: UseKind,
        page: usize,
    ) -> Result<(), CensusRefusal>
        ensures answer { result ≡ may_show self.old.pages (length table.old) (length counts.old) page }
        ensures refused { is_ok result ≡ false → (self.new ≡ self.old) × (table.new ≡ table.old) × (counts.new ≡ counts.old) }
        ensures same { SameSize self.old self.new }
        ensures rest { (drop self.old.pages table.new ≡ drop self.old.pages table.old) × (drop (needed self.old.pages) counts.new ≡ drop (needed self.old.pages) counts.old) }
        ensures step { (b : Ledger) → Keeps R.TopRule.told self.old table.old counts.old b → result ≡ Ok tt → Keeps R.TopRule.told self.new table.new counts.new (shown_use (rule_of R.TopRule.slot R.TopRule.next) self.old.parts.slots kind page b) }
    {
        self.may_show(table, counts, page)?;
        let pages = self.pages;
        self.use_seen(
            &mut table[0..pages],
            &mut counts[0..3 * (pages + 1)],
            kind,
            page,
        );
        Ok(())
    }

    // Shows the census a settle.
    pub fn show_settle(
        &mut self,
        table: &mut [PageRecord],
        counts: &mut [u32],
    ) -> Result<(), CensusRefusal>
        ensures answer { result ≡ may_keep self.old.pages (length table.old) (length counts.old) }
        ensures refused { is_ok result ≡ false → (self.new ≡ self.old) × (table.new ≡ table.old) × (counts.new ≡ counts.old) }
        ensures same { SameSize self.old self.new }
        ensures rest { (drop self.old.pages table.new ≡ drop self.old.pages table.old) × (counts.new ≡ counts.old) }
        ensures step { (b : Ledger) → Keeps R.TopRule.told self.old table.old counts.old b → result ≡ Ok tt → Keeps R.TopRule.told self.new table.new counts.new (shown_settle self.old.pages b) }
    {
        self.may_keep(table, counts)?;
        let ended = end_windows(&mut table[0..self.pages]);
        self.settled = self.settled.wrapping_add(ended);
        self.calls = self.calls.wrapping_add(1);
        Ok(())
    }

    // Shows the census a call, of whichever kind: a call is data, read from a recording, so a match and no closure.
    pub fn show(
        &mut self,
        table: &mut [PageRecord],
        counts: &mut [u32],
        call: Call,
    ) -> Result<(), CensusRefusal>
        ensures answer { result ≡ may_take self.old.pages (length table.old) (length counts.old) call }
        ensures refused { is_ok result ≡ false → (self.new ≡ self.old) × (table.new ≡ table.old) × (counts.new ≡ counts.old) }
        ensures same { SameSize self.old self.new }
        ensures rest { (drop self.old.pages table.new ≡ drop self.old.pages table.old) × (drop (needed self.old.pages) counts.new ≡ drop (needed self.old.pages) counts.old) }
        ensures step { (b : Ledger) → Keeps R.TopRule.told self.old table.old counts.old b → result ≡ Ok tt → Keeps R.TopRule.told self.new table.new counts.new (shown (rule_of R.TopRule.slot R.TopRule.next) self.old.pages self.old.parts.slots b call) }
    {
        match call {
            Call::Use(kind, page) => self.show_use(table, counts, kind, page),
            Call::Settle => self.show_settle(table, counts),
        }
    }
}
