// A census under the rule that a header named.
// An enum with a case for each rule: a trait object may not be made and handed out.
ghost use Rattle.std.specs.Prelude.{◌≡◌, length, IfOk, Ok, Err, MatchResult};
ghost use Rattle.model.specs.Ledger.{Ledger};
ghost use Rattle.model.specs.Rows.{row_of};
ghost use Rattle.census.specs.Refusals.{may_ask};
ghost use Rattle.counting.specs.Counted.{pages_in, slots_in, KeepsIn};

use census::{Census, CensusRefusal, PageRecord};
use model::Row;
use rules::{Lottery, Oldest};

#[derive(Drop)]
pub enum Counted {
    Oldest(Census<Oldest>),
    Lottery(Census<Lottery>),
}

impl Counted {
    // How many pages the recording has.
    pub fn pages(&self) -> usize
        ensures { result ≡ pages_in self.now }
    {
        match self {
            Counted::Oldest(census) => census.pages(),
            Counted::Lottery(census) => census.pages(),
        }
    }

    // Row l of the census.
    pub fn row(&self, table: &[PageRecord], counts: &[u32], l: usize) -> Result<Row, CensusRefusal>
        ensures answer { MatchResult result (λ _. may_ask (pages_in self.now) (length table.now) (length counts.now) l ≡ Ok tt) (λ e. may_ask (pages_in self.now) (length table.now) (length counts.now) l ≡ Err e) }
        ensures row { (b : Ledger) → KeepsIn self.now table.now counts.now b → IfOk result (λ row. row ≡ row_of (pages_in self.now) (slots_in self.now) l b) }
    {
        match self {
            Counted::Oldest(census) => census.row(table, counts, l),
            Counted::Lottery(census) => census.row(table, counts, l),
        }
    }
}
