// Bytes between a frame and the store below, and between a frame and the caller's buffer. Each moves once.
ghost use Rattle.std.specs.Prelude.{◌≡◌, ◌<◌, [], length, slice_index_or};
ghost use Rattle.store.specs.Meaning.{fetched};
ghost use Rattle.pager.specs.Frames.{cleaned, filled, written, flushed};

use super::frame::Frame;
use store::PageStore;

impl Frame {
    // Saves the page below if it is dirty. It is clean then.
    pub(crate) fn save_to<S: PageStore>(&mut self, below: &mut S)
        requires opened { S.PageStore.opened below.old }
        requires there { self.old.page < length (S.PageStore.meaning below.old).bytes }
        ensures opened { S.PageStore.opened below.new }
        ensures below { S.PageStore.meaning below.new ≡ flushed self.old (S.PageStore.meaning below.old) }
        ensures frame { self.new ≡ cleaned self.old }
    {
        if self.dirty {
            below.save(self.page, &self.bytes).unwrap();
            self.dirty = false;
        }
    }

    // Fetches the page's bytes from below.
    pub(crate) fn fetch_from<S: PageStore>(&mut self, below: &mut S)
        requires opened { S.PageStore.opened below.old }
        requires there { self.old.page < length (S.PageStore.meaning below.old).bytes }
        ensures opened { S.PageStore.opened below.new }
        ensures below { S.PageStore.meaning below.new ≡ fetched (S.PageStore.meaning below.old) }
        ensures frame { self.new ≡ filled (slice_index_or (S.PageStore.meaning below.old).bytes self.old.page []) self.old }
    {
        below.fetch(self.page, &mut self.bytes).unwrap();
    }

    // Gives the page's bytes to the caller.
    pub(crate) fn give(&self, buffer: &mut [u8])
        requires { length buffer.old ≡ 64 }
        ensures { buffer.new ≡ self.now.bytes }
    {
        buffer.copy_from_slice(&self.bytes);
    }

    // Takes the caller's bytes for the page, which is dirty then.
    pub(crate) fn take(&mut self, buffer: &[u8])
        requires { length buffer.now ≡ 64 }
        ensures { self.new ≡ written buffer.now self.old }
    {
        self.bytes.copy_from_slice(buffer);
        self.dirty = true;
    }
}
