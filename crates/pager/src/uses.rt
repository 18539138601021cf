// The uses of a pager: reads and writes.
ghost use Rattle.std.specs.Prelude.{◌≡◌, ℕ, ◌<◌, true, false, not, ◌≢◌, length, is_ok};
ghost use Rattle.store.specs.Uses.{Fetched, Saved};
ghost use Rattle.model.specs.Order.{rule_of};
ghost use Rattle.model.specs.Pager.{holds};
ghost use Rattle.model.specs.Bytes.{Paged, paged_read, paged_write, given};
ghost use Rattle.pager.specs.Frames.{at, page_in, contents, taken, In, Absent, flushed};
ghost use Rattle.pager.specs.Counted.{driven_out};
ghost use Rattle.pager.specs.Settings.{Setting, pages_of};
ghost use Rattle.pager.specs.Shows.{frames_of, Shows};
ghost use Rattle.pager.specs.Book.{pager_meaning};
ghost use Rattle.pager.specs.Booked.{Booked};
ghost use Rattle.pager.specs.Ready.{Ready};
ghost use Rattle.pager.specs.Touched.{touched};
ghost use Rattle.pager.specs.Vacant.{Vacant};
ghost use Rattle.pager.specs.Roomy.{Roomy};

use super::seeks::{frame_of, free_frame};
use super::state::Pager;
use super::works::Works;
use rules::TopRule;
use store::{PageStore, StoreRefusal, may_use};

// The frame of a page, and whether the page had none before.
#[derive(Clone, Copy)]
struct Held {
    frame: usize,
    new: bool,
}

impl<S: PageStore, R: TopRule> Works<S, R> {
    // A use of the page that frame `i` holds.
    fn touch(&mut self, i: usize)
        requires booked { ∥ Booked S.PageStore.meaning R.TopRule.told self.old ∥₁ }
        requires held { In (frames_of self.old) (page_in (frames_of self.old) i) i }
        ensures shows { (s : Setting) (w : Paged) → Shows R.TopRule.told S.PageStore.meaning s self.old w → Shows R.TopRule.told S.PageStore.meaning s self.new (touched (rule_of R.TopRule.slot R.TopRule.next) s.slots s.bottom (page_in (frames_of self.old) i) (at (frames_of self.new) i).bytes w) }
        ensures here { In (frames_of self.new) (page_in (frames_of self.old) i) i }
        ensures below { self.new.below ≡ self.old.below }
    {
        self.counts.note_found(self.table.frames[i].links.part);
        self.table.seat(i);
    }

    // The frame whose page is driven out where every frame holds one. The page is saved below if it is dirty.
    fn evict(&mut self) -> usize
        requires opened { S.PageStore.opened self.old.below }
        requires booked { ∥ Booked S.PageStore.meaning R.TopRule.told self.old ∥₁ }
        requires full { (j : ℕ) → j < length (frames_of self.old) → taken (at (frames_of self.old) j).links.part ≡ true }
        ensures opened { S.PageStore.opened self.new.below }
        ensures below { S.PageStore.meaning self.new.below ≡ flushed (at (frames_of self.old) result) (S.PageStore.meaning self.old.below) }
        ensures held { In (frames_of self.old) (page_in (frames_of self.old) result) result }
        ensures vacant { (s : Setting) (w : Paged) (p : ℕ) → Shows R.TopRule.told S.PageStore.meaning s self.old w → Absent (frames_of self.old) p → Vacant R.TopRule.told (rule_of R.TopRule.slot R.TopRule.next) s.slots s.bottom (frames_of self.old) w.pager.order p result self.new.table.parts (frames_of self.new) }
        ensures others { (j : ℕ) → j ≢ result → contents (at (frames_of self.new) j) ≡ contents (at (frames_of self.old) j) }
        ensures long { length (frames_of self.new) ≡ length (frames_of self.old) }
        ensures slots { self.new.table.parts.slots ≡ self.old.table.parts.slots }
        ensures counts { self.new.counts ≡ driven_out self.old.counts }
    {
        let i = self.table.vacate();
        self.table.save(i, &mut self.below);
        self.counts.note_eviction();
        i
    }

    // A frame for a page that has none: a free one, or that of a page that is driven out.
    fn make_room(&mut self) -> usize
        requires opened { S.PageStore.opened self.old.below }
        requires booked { ∥ Booked S.PageStore.meaning R.TopRule.told self.old ∥₁ }
        ensures opened { S.PageStore.opened self.new.below }
        ensures room { (s : Setting) (w : Paged) (p : ℕ) → Shows R.TopRule.told S.PageStore.meaning s self.old w → p < pages_of s → Absent (frames_of self.old) p → Roomy R.TopRule.told S.PageStore.meaning (rule_of R.TopRule.slot R.TopRule.next) s self.old self.new w p result }
    {
        match free_frame(&self.table.frames) {
            Some(i) => i,
            None => self.evict(),
        }
    }

    // A use of a page that has no frame: it gets one, which still has the bytes of before.
    fn admit(&mut self, page: usize) -> usize
        requires opened { S.PageStore.opened self.old.below }
        requires booked { ∥ Booked S.PageStore.meaning R.TopRule.told self.old ∥₁ }
        requires low { page < length (S.PageStore.meaning self.old.below).bytes }
        requires absent { Absent (frames_of self.old) page }
        ensures opened { S.PageStore.opened self.new.below }
        ensures shows { (s : Setting) (w : Paged) → Shows R.TopRule.told S.PageStore.meaning s self.old w → Shows R.TopRule.told S.PageStore.meaning s self.new (touched (rule_of R.TopRule.slot R.TopRule.next) s.slots s.bottom page (at (frames_of self.new) result).bytes w) }
        ensures here { In (frames_of self.new) page result }
    {
        let i = self.make_room();
        self.table.occupy(i, page);
        self.counts.note_fault();
        i
    }

    // A use of a page before its bytes move: it has a frame in the top then.
    fn hold(&mut self, page: usize) -> Held
        requires opened { S.PageStore.opened self.old.below }
        requires booked { ∥ Booked S.PageStore.meaning R.TopRule.told self.old ∥₁ }
        requires low { page < length (S.PageStore.meaning self.old.below).bytes }
        ensures opened { S.PageStore.opened self.new.below }
        ensures shows { (s : Setting) (w : Paged) → Shows R.TopRule.told S.PageStore.meaning s self.old w → Shows R.TopRule.told S.PageStore.meaning s self.new (touched (rule_of R.TopRule.slot R.TopRule.next) s.slots s.bottom page (at (frames_of self.new) result.frame).bytes w) }
        ensures found { (s : Setting) (w : Paged) → Shows R.TopRule.told S.PageStore.meaning s self.old w → holds page w.pager.order ≡ not result.new }
        ensures here { In (frames_of self.new) page result.frame }
    {
        match frame_of(&self.table.frames, page) {
            Some(frame) => {
                self.touch(frame);
                Held { frame, new: false }
            }
            None => {
                let frame = self.admit(page);
                Held { frame, new: true }
            }
        }
    }

    // A read of a page before the caller gets its bytes: they are in its frame.
    fn load(&mut self, page: usize) -> usize
        requires opened { S.PageStore.opened self.old.below }
        requires booked { ∥ Booked S.PageStore.meaning R.TopRule.told self.old ∥₁ }
        requires low { page < length (S.PageStore.meaning self.old.below).bytes }
        ensures opened { S.PageStore.opened self.new.below }
        ensures shows { (s : Setting) (w : Paged) → Shows R.TopRule.told S.PageStore.meaning s self.old w → Shows R.TopRule.told S.PageStore.meaning s self.new (paged_read (rule_of R.TopRule.slot R.TopRule.next) s.slots s.bottom page w) }
        ensures here { In (frames_of self.new) page result }
    {
        let held = self.hold(page);
        if held.new {
            self.table.fetch(held.frame, &mut self.below);
        }
        held.frame
    }
}

impl<S: PageStore, R: TopRule> Pager<S, R> {
    // Gives the bytes of a page into the buffer.
    pub fn read(&mut self, page: usize, buffer: &mut [u8]) -> Result<(), StoreRefusal>
        requires { Ready S.PageStore.opened S.PageStore.meaning R.TopRule.told self.old }
        ensures ready { Ready S.PageStore.opened S.PageStore.meaning R.TopRule.told self.new }
        ensures effect { Fetched (pager_meaning S.PageStore.meaning self.old.works self.old.tallies) page buffer.old result (pager_meaning S.PageStore.meaning self.new.works self.new.tallies) buffer.new }
        ensures refused { is_ok result ≡ false → self.new ≡ self.old }
        ensures step { (s : Setting) (w : Paged) → Shows R.TopRule.told S.PageStore.meaning s self.old.works w → is_ok result ≡ true → Shows R.TopRule.told S.PageStore.meaning s self.new.works (paged_read (rule_of R.TopRule.slot R.TopRule.next) s.slots s.bottom page w) }
        ensures bytes { (s : Setting) (w : Paged) → Shows R.TopRule.told S.PageStore.meaning s self.old.works w → is_ok result ≡ true → buffer.new ≡ given (rule_of R.TopRule.slot R.TopRule.next) s.slots s.bottom page w }
    {
        may_use(self.pages, page, buffer.len())?;
        let frame = self.works.load(page);
        self.works.table.give(frame, buffer);
        self.tallies.note_fetch();
        Ok(())
    }

    // Replaces the bytes of a page by the buffer's.
    pub fn write(&mut self, page: usize, buffer: &[u8]) -> Result<(), StoreRefusal>
        requires { Ready S.PageStore.opened S.PageStore.meaning R.TopRule.told self.old }
        ensures ready { Ready S.PageStore.opened S.PageStore.meaning R.TopRule.told self.new }
        ensures effect { Saved (pager_meaning S.PageStore.meaning self.old.works self.old.tallies) page buffer.now result (pager_meaning S.PageStore.meaning self.new.works self.new.tallies) }
        ensures refused { is_ok result ≡ false → self.new ≡ self.old }
        ensures step { (s : Setting) (w : Paged) → Shows R.TopRule.told S.PageStore.meaning s self.old.works w → is_ok result ≡ true → Shows R.TopRule.told S.PageStore.meaning s self.new.works (paged_write (rule_of R.TopRule.slot R.TopRule.next) s.slots s.bottom page buffer.now w) }
    {
        may_use(self.pages, page, buffer.len())?;
        let held = self.works.hold(page);
        self.works.table.take(held.frame, buffer);
        self.tallies.note_save();
        Ok(())
    }
}
