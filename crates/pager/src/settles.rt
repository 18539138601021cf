// Settling and closing a pager.
ghost use Rattle.std.specs.Prelude.{◌≡◌, ℕ, ◌+◌, ◌<◌, length};
ghost use Rattle.model.specs.Bytes.{Paged, paged_settle};
ghost use Rattle.pager.specs.Frames.{In};
ghost use Rattle.pager.specs.Settings.{Setting, pages_of};
ghost use Rattle.pager.specs.Shows.{frames_of, StoreShows, Shows};
ghost use Rattle.pager.specs.Book.{book_of, pager_meaning};
ghost use Rattle.pager.specs.Booked.{Booked};
ghost use Rattle.pager.specs.Ready.{Ready};
ghost use Rattle.pager.specs.Partly.{partly};

use super::seeks::frame_of;
use super::state::Pager;
use super::works::Works;
use rules::TopRule;
use store::PageStore;

impl<S: PageStore, R: TopRule> Works<S, R> {
    // The turn of one page in a settle: it is saved below if it is dirty.
    fn settle_page(&mut self, page: usize)
        requires opened { S.PageStore.opened self.old.below }
        requires low { (q i : ℕ) → In (frames_of self.old) q i → q < length (S.PageStore.meaning self.old.below).bytes }
        ensures opened { S.PageStore.opened self.new.below }
        ensures shows { (s : Setting) (w : Paged) → Shows R.TopRule.told S.PageStore.meaning s self.old (partly page w) → Shows R.TopRule.told S.PageStore.meaning s self.new (partly (page + 1) w) }
    {
        if let Some(i) = frame_of(&self.table.frames, page) {
            self.table.save(i, &mut self.below);
        }
    }

    // Saves each dirty page below, which has so many pages.
    fn settle(&mut self, pages: usize)
        requires opened { S.PageStore.opened self.old.below }
        requires booked { ∥ Booked S.PageStore.meaning R.TopRule.told self.old ∥₁ }
        requires counted { pages ≡ length (S.PageStore.meaning self.old.below).bytes }
        ensures opened { S.PageStore.opened self.new.below }
        ensures shows { (s : Setting) (w : Paged) → Shows R.TopRule.told S.PageStore.meaning s self.old w → Shows R.TopRule.told S.PageStore.meaning s self.new (paged_settle (pages_of s) w) }
    {
        for page in 0..pages {
            self.settle_page(page);
        }
    }
}

impl<S: PageStore, R: TopRule> Pager<S, R> {
    // Saves each dirty page below, in ascending order of the pages, and makes it clean. Nothing moves.
    pub fn settle(&mut self)
        requires { Ready S.PageStore.opened S.PageStore.meaning R.TopRule.told self.old }
        ensures ready { Ready S.PageStore.opened S.PageStore.meaning R.TopRule.told self.new }
        ensures same { pager_meaning S.PageStore.meaning self.new.works self.new.tallies ≡ pager_meaning S.PageStore.meaning self.old.works self.old.tallies }
        ensures below { (S.PageStore.meaning self.new.works.below).bytes ≡ book_of S.PageStore.meaning self.old.works }
        ensures step { (s : Setting) (w : Paged) → Shows R.TopRule.told S.PageStore.meaning s self.old.works w → Shows R.TopRule.told S.PageStore.meaning s self.new.works (paged_settle (pages_of s) w) }
    {
        self.works.settle(self.pages);
    }
}

impl<S: PageStore, R: TopRule + Drop> Pager<S, R> {
    // Settles the pager and gives the store below back.
    pub fn close(mut self) -> S
        requires { Ready S.PageStore.opened S.PageStore.meaning R.TopRule.told self }
        ensures opened { S.PageStore.opened result }
        ensures bytes { (S.PageStore.meaning result).bytes ≡ book_of S.PageStore.meaning self.works }
        ensures step { (s : Setting) (w : Paged) → Shows R.TopRule.told S.PageStore.meaning s self.works w → StoreShows s (S.PageStore.meaning result) (paged_settle (pages_of s) w) }
    {
        self.settle();
        let Pager {
            works,
            pages: _,
            tallies: _,
        } = self;
        let Works {
            below,
            table: _,
            counts: _,
        } = works;
        below
    }
}
