// What a pager tells: where a page is, and its counts.
ghost use Rattle.std.specs.Prelude.{◌≡◌};
ghost use Rattle.model.specs.Rows.{wrapped};
ghost use Rattle.model.specs.Bytes.{Paged};
ghost use Rattle.pager.specs.Settings.{Setting};
ghost use Rattle.pager.specs.Shows.{Shows};
ghost use Rattle.pager.specs.Where.{where_in};

use super::seeks::frame_of;
use super::state::Pager;
use rules::TopRule;
use store::PageStore;

// Where a page is that has a frame.
#[derive(Clone, Copy, PartialEq, Eq, Debug)]
pub enum Place {
    // In a slot of the top, counted from 0.
    InTop(usize),
    // At a place of the bottom, counted from 1 at the newest page.
    InBottom(usize),
}

impl<S: PageStore, R: TopRule> Pager<S, R> {
    // Where a page is, none where it is in no frame, as a page is that the store below does not have.
    pub fn where_is(&self, page: usize) -> Option<Place>
        ensures { (s : Setting) (w : Paged) → Shows R.TopRule.told S.PageStore.meaning s self.now.works w → result ≡ where_in page w.pager.order }
    {
        let table = &self.works.table;
        let i = frame_of(&table.frames, page)?;
        if let Some(slot) = table.parts.slot_of(i) {
            return Some(Place::InTop(slot));
        }
        let depth = table.parts.depth_of(&table.frames, i)?;
        Some(Place::InBottom(depth))
    }

    // Uses of a page in the top, modulo 2^32. The product asks for each of the four counts by a call of its own.
    pub fn top_hits(&self) -> u32
        ensures { (s : Setting) (w : Paged) → Shows R.TopRule.told S.PageStore.meaning s self.now.works w → result ≡ wrapped w.pager.hits }
    {
        self.works.counts.hits
    }

    // Uses of a page in the bottom, modulo 2^32.
    pub fn reclaims(&self) -> u32
        ensures { (s : Setting) (w : Paged) → Shows R.TopRule.told S.PageStore.meaning s self.now.works w → result ≡ wrapped w.pager.reclaims }
    {
        self.works.counts.reclaims
    }

    // Uses of a page in neither part, modulo 2^32.
    pub fn faults(&self) -> u32
        ensures { (s : Setting) (w : Paged) → Shows R.TopRule.told S.PageStore.meaning s self.now.works w → result ≡ wrapped w.pager.faults }
    {
        self.works.counts.faults
    }

    // Pages that left the bottom at its end, modulo 2^32.
    pub fn evictions(&self) -> u32
        ensures { (s : Setting) (w : Paged) → Shows R.TopRule.told S.PageStore.meaning s self.now.works w → result ≡ wrapped w.pager.evictions }
    {
        self.works.counts.evictions
    }
}
