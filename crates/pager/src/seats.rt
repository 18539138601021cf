// Moves of frames in their order.
ghost use Rattle.std.specs.Prelude.{◌≡◌, ℕ, ◌+◌, ◌<◌, ◌≤◌, true, false, [], length, is_some, vec_len, MatchOption, slice_set};
ghost use Rattle.model.specs.Order.{Order, rule_of, used};
ghost use Rattle.model.specs.Sound.{Sound};
ghost use Rattle.pager.specs.Frames.{at, page_in, taken, In, Absent};
ghost use Rattle.pager.specs.Framed.{Framed, Alone, SameContents, renamed, marked, Sat, Released, Left, Slotted};
ghost use Rattle.pager.specs.Vacant.{Vacant, Taken};

use super::frames::FrameTable;
use rules::TopRule;

impl<R: TopRule> FrameTable<R> {
    // A use of the page that frame `i` is named after: the frame takes its seat in the top.
    pub(crate) fn seat(&mut self, i: usize)
        requires within { i < vec_len self.old.frames }
        requires alone { Alone self.old.frames.items i }
        ensures step { (o : Order) → Framed R.TopRule.told self.old.parts self.old.frames.items o → Framed R.TopRule.told self.new.parts self.new.frames.items (used (rule_of R.TopRule.slot R.TopRule.next) self.old.parts.slots (page_in self.old.frames.items i) o) }
        ensures sat { (o : Order) → Framed R.TopRule.told self.old.parts self.old.frames.items o → Sat R.TopRule.told (rule_of R.TopRule.slot R.TopRule.next) self.old.parts.slots self.old.frames.items o i self.new.parts self.new.frames.items }
        ensures same { SameContents self.old.frames.items self.new.frames.items }
        ensures slots { self.new.parts.slots ≡ self.old.parts.slots }
    {
        self.parts.touch(&mut self.frames, i);
    }

    // Names a frame after a page that no frame holds.
    pub(crate) fn name(&mut self, i: usize, page: usize)
        requires within { i < vec_len self.old.frames }
        requires absent { Absent self.old.frames.items page }
        ensures wrote { self.new.frames.items ≡ slice_set self.old.frames.items i (renamed page (at self.old.frames.items i)) }
        ensures parts { self.new.parts ≡ self.old.parts }
    {
        let frame = &mut self.frames[i];
        frame.page = page;
        frame.dirty = false;
    }

    // Marks the page of a frame as dirty or clean.
    pub(crate) fn mark(&mut self, i: usize, dirty: bool)
        requires within { i < vec_len self.old.frames }
        ensures wrote { self.new.frames.items ≡ slice_set self.old.frames.items i (marked dirty (at self.old.frames.items i)) }
        ensures parts { self.new.parts ≡ self.old.parts }
    {
        let frame = &mut self.frames[i];
        frame.dirty = dirty;
    }

    // Takes the oldest frame of the bottom out of the order.
    pub(crate) fn release_last(&mut self) -> Option<usize>
        ensures step { (o : Order) → Framed R.TopRule.told self.old.parts self.old.frames.items o → MatchOption result (o.bottom ≡ []) (λ i. Released R.TopRule.told self.old.frames.items o i self.new.parts self.new.frames.items) }
        ensures left { (o : Order) → Framed R.TopRule.told self.old.parts self.old.frames.items o → MatchOption result (o.bottom ≡ []) (λ i. Left R.TopRule.told self.old.frames.items o i self.new.parts self.new.frames.items) }
        ensures none { is_some result ≡ false → (self.new.parts ≡ self.old.parts) × (self.new.frames.items ≡ self.old.frames.items) }
        ensures same { SameContents self.old.frames.items self.new.frames.items }
        ensures slots { self.new.parts.slots ≡ self.old.parts.slots }
    {
        self.parts.drop_last(&mut self.frames)
    }

    // The frame in the slot of a full top that the rule names.
    pub(crate) fn named_slot(&mut self) -> usize
        ensures step { (o : Order) → Framed R.TopRule.told self.old.parts self.old.frames.items o → self.old.parts.slots ≤ length o.top → Slotted R.TopRule.told (rule_of R.TopRule.slot R.TopRule.next) self.old.parts.slots self.old.frames.items o result self.new.parts }
        ensures same { self.new.frames ≡ self.old.frames }
        ensures slots { self.new.parts.slots ≡ self.old.parts.slots }
    {
        self.parts.choose_slot()
    }

    // The frame whose page is driven out where every frame holds one: that of the last page of the bottom,
    // or, without a bottom, that of the slot that the rule names. Its page is still in it.
    pub(crate) fn vacate(&mut self) -> usize
        requires full { (j : ℕ) → j < length self.old.frames.items → taken (at self.old.frames.items j).links.part ≡ true }
        ensures step { (n l p : ℕ) (o : Order) → Framed R.TopRule.told self.old.parts self.old.frames.items o → Sound n self.old.parts.slots o → length self.old.frames.items ≡ self.old.parts.slots + l → Absent self.old.frames.items p → Vacant R.TopRule.told (rule_of R.TopRule.slot R.TopRule.next) self.old.parts.slots l self.old.frames.items o p result self.new.parts self.new.frames.items }
        ensures held { (l : ℕ) (o : Order) → Framed R.TopRule.told self.old.parts self.old.frames.items o → length self.old.frames.items ≡ self.old.parts.slots + l → In self.old.frames.items (page_in self.old.frames.items result) result }
        ensures same { SameContents self.old.frames.items self.new.frames.items }
        ensures slots { self.new.parts.slots ≡ self.old.parts.slots }
    {
        match self.release_last() {
            Some(i) => i,
            None => self.named_slot(),
        }
    }

    // Frame `i`, which is free for it, takes `page`: it is named after the page, and takes its seat.
    pub(crate) fn occupy(&mut self, i: usize, page: usize)
        requires within { i < vec_len self.old.frames }
        requires absent { Absent self.old.frames.items page }
        ensures step { (o : Order) → Framed R.TopRule.told self.old.parts (slice_set self.old.frames.items i (renamed page (at self.old.frames.items i))) o → Taken R.TopRule.told (rule_of R.TopRule.slot R.TopRule.next) self.old.parts.slots self.old.frames.items o i page self.new.parts self.new.frames.items }
        ensures slots { self.new.parts.slots ≡ self.old.parts.slots }
        ensures long { length self.new.frames.items ≡ length self.old.frames.items }
    {
        self.name(i, page);
        self.seat(i);
    }
}
