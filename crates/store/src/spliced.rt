// The spliced store: two stores of any make as one, the first one's pages coming first.
ghost use Rattle.std.specs.Prelude.{◌≡◌, ◌+◌, ◌≤◌, length};
ghost use Rattle.store.specs.Splices.{Joined, may_splice, past_seam, spliced};

use crate::{MOST_PAGES, PageStore, StoreRefusal, Tallies};

// Two stores as one, with tallies of its own.
#[derive(Drop)]
pub struct SplicedStore<F, S> {
    first: F,
    second: S,
    tallies: Tallies,
}

impl<F: PageStore, S: PageStore> SplicedStore<F, S> {
    // Whether the two may be spliced: refused where their page counts sum above 512.
    pub fn check(first: &F, second: &S) -> Result<(), StoreRefusal>
        requires { (F.PageStore.opened first.now) × (S.PageStore.opened second.now) }
        ensures { result ≡ may_splice (length (F.PageStore.meaning first.now).bytes) (length (S.PageStore.meaning second.now).bytes) }
    {
        if first.pages() + second.pages() > MOST_PAGES {
            return Err(StoreRefusal::TooManyPages);
        }
        Ok(())
    }

    // Splices two stores that `check` accepts. The tallies start at 0.
    pub fn make(first: F, second: S) -> SplicedStore<F, S>
        requires { length (F.PageStore.meaning first).bytes + length (S.PageStore.meaning second).bytes ≤ 512 }
        ensures parts { (result.first ≡ first) × (result.second ≡ second) }
        ensures tallies { result.tallies ≡ record { fetches = 0; saves = 0 } }
    {
        SplicedStore {
            first,
            second,
            tallies: Tallies::default(),
        }
    }

    // Gives both stores back.
    pub fn split(self) -> (F, S)
        ensures { (result.0 ≡ self.first) × (result.1 ≡ self.second) }
    {
        let SplicedStore {
            first,
            second,
            tallies: _,
        } = self;
        (first, second)
    }

    // The number that a page has in the second store, or `None` for a page of the first.
    fn in_second(&self, page: usize) -> Option<usize>
        requires { F.PageStore.opened self.now.first }
        ensures { result ≡ past_seam (length (F.PageStore.meaning self.now.first).bytes) page }
    {
        let below = self.first.pages();
        if page < below {
            None
        } else {
            Some(page - below)
        }
    }
}

impl<F: PageStore, S: PageStore> PageStore for SplicedStore<F, S> {
    ghost meaning = { λ s. spliced (F.PageStore.meaning s.first) (S.PageStore.meaning s.second) s.tallies };

    // It speaks of the parts by what the bounds give, so it is no invariant of the type, which has no bounds.
    ghost opened = { λ s. Joined (F.PageStore.opened s.first) (S.PageStore.opened s.second) (F.PageStore.meaning s.first) (S.PageStore.meaning s.second) };

    fn pages(&self) -> usize {
        self.first.pages() + self.second.pages()
    }

    fn tallies(&self) -> Tallies {
        self.tallies
    }

    // Fetch and save are written out: the one lends its buffer to be written, the other to be read.
    fn fetch(&mut self, page: usize, buffer: &mut [u8]) -> Result<(), StoreRefusal> {
        match self.in_second(page) {
            None => self.first.fetch(page, buffer)?,
            Some(place) => self.second.fetch(place, buffer)?,
        }
        self.tallies.note_fetch();
        Ok(())
    }

    fn save(&mut self, page: usize, buffer: &[u8]) -> Result<(), StoreRefusal> {
        match self.in_second(page) {
            None => self.first.save(page, buffer)?,
            Some(place) => self.second.save(place, buffer)?,
        }
        self.tallies.note_save();
        Ok(())
    }
}
