// The pager as a store of its own.
ghost use Rattle.pager.specs.Book.{pager_meaning};
ghost use Rattle.pager.specs.Ready.{Ready};

use super::state::Pager;
use rules::TopRule;
use store::{PageStore, StoreRefusal, Tallies};

// Its pages hold the byte book: what was last written, or else what the store below held at the opening.
impl<S: PageStore, R: TopRule> PageStore for Pager<S, R> {
    ghost meaning = { λ p. pager_meaning S.PageStore.meaning p.works p.tallies };

    // It speaks of the store below by what the bounds give, so it is no invariant of the type, which has no bounds.
    ghost opened = { λ p. Ready S.PageStore.opened S.PageStore.meaning R.TopRule.told p };

    fn pages(&self) -> usize {
        self.pages
    }

    fn tallies(&self) -> Tallies {
        self.tallies
    }

    fn fetch(&mut self, page: usize, buffer: &mut [u8]) -> Result<(), StoreRefusal> {
        self.read(page, buffer)
    }

    fn save(&mut self, page: usize, buffer: &[u8]) -> Result<(), StoreRefusal> {
        self.write(page, buffer)
    }
}
