// One frame of the table, lent for a transfer. A frame is lent inside the table alone, whose invariant speaks of every frame.
ghost use Rattle.std.specs.Prelude.{◌≡◌, ◌<◌, [], length, vec_len, slice_index_or, slice_set};
ghost use Rattle.store.specs.Meaning.{fetched};
ghost use Rattle.pager.specs.Frames.{at, page_in, cleaned, filled, written, flushed};

use super::frames::FrameTable;
use store::PageStore;

impl<R> FrameTable<R> {
    // Saves the page of frame `i` below if it is dirty. It is clean then.
    pub(crate) fn save<S: PageStore>(&mut self, i: usize, below: &mut S)
        requires within { i < vec_len self.old.frames }
        requires opened { S.PageStore.opened below.old }
        requires there { page_in self.old.frames.items i < length (S.PageStore.meaning below.old).bytes }
        ensures opened { S.PageStore.opened below.new }
        ensures below { S.PageStore.meaning below.new ≡ flushed (at self.old.frames.items i) (S.PageStore.meaning below.old) }
        ensures wrote { self.new.frames.items ≡ slice_set self.old.frames.items i (cleaned (at self.old.frames.items i)) }
        ensures parts { self.new.parts ≡ self.old.parts }
    {
        self.frames[i].save_to(below);
    }

    // Fetches the bytes of the page of frame `i` from below.
    pub(crate) fn fetch<S: PageStore>(&mut self, i: usize, below: &mut S)
        requires within { i < vec_len self.old.frames }
        requires opened { S.PageStore.opened below.old }
        requires there { page_in self.old.frames.items i < length (S.PageStore.meaning below.old).bytes }
        ensures opened { S.PageStore.opened below.new }
        ensures below { S.PageStore.meaning below.new ≡ fetched (S.PageStore.meaning below.old) }
        ensures wrote { self.new.frames.items ≡ slice_set self.old.frames.items i (filled (slice_index_or (S.PageStore.meaning below.old).bytes (page_in self.old.frames.items i) []) (at self.old.frames.items i)) }
        ensures parts { self.new.parts ≡ self.old.parts }
    {
        self.frames[i].fetch_from(below);
    }

    // Gives the bytes of the page of frame `i` to the caller.
    pub(crate) fn give(&self, i: usize, buffer: &mut [u8])
        requires within { i < vec_len self.now.frames }
        requires long { length buffer.old ≡ 64 }
        ensures { buffer.new ≡ (at self.now.frames.items i).bytes }
    {
        self.frames[i].give(buffer);
    }

    // Takes the caller's bytes for the page of frame `i`, which is dirty then.
    pub(crate) fn take(&mut self, i: usize, buffer: &[u8])
        requires within { i < vec_len self.old.frames }
        requires long { length buffer.now ≡ 64 }
        ensures wrote { self.new.frames.items ≡ slice_set self.old.frames.items i (written buffer.now (at self.old.frames.items i)) }
        ensures parts { self.new.parts ≡ self.old.parts }
    {
        self.frames[i].take(buffer);
    }
}
