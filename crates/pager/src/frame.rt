// A frame: room for one page, with what the pager knows of it.
ghost use Rattle.std.specs.Prelude.{◌≡◌};
ghost use Rattle.pager.specs.Frames.{contents, idle, taken};
ghost use Rattle.std.proofs.Common.{rules};

use links::{Linked, Links, Part};
use store::PAGE_BYTES;

#[derive(Clone, Copy)]
pub(crate) struct Frame {
    // the frames of the next older and the next newer page of the bottom, and where the frame is; one in no part holds no page
    pub(crate) links: Links,
    // the page that it holds; it stands beside the part, since a frame that is driven out keeps its page's number until the
    // bytes are saved
    pub(crate) page: usize,
    // whether the page was written since it was last the same as below
    pub(crate) dirty: bool,
    pub(crate) bytes: [u8; PAGE_BYTES],
}

impl Frame {
    // A frame that holds no page.
    pub(crate) fn idle() -> Frame
        ensures { result ≡ idle }
    {
        Frame {
            links: Links::default(),
            page: 0,
            dirty: false,
            bytes: [0; PAGE_BYTES],
        }
    }

    // Whether it holds a page.
    pub(crate) fn is_taken(&self) -> bool
        ensures { result ≡ taken self.now.links.part }
    {
        self.links.part != Part::Unused
    }
}

impl Linked for Frame {
    ghost links = { λ f. f.links };

    ghost rest = { contents };

    ghost none = { Prim.search rules };

    ghost whole = { Prim.search rules };

    fn links(&self) -> Links {
        self.links
    }

    fn set_links(&mut self, to: Links) {
        self.links = to;
    }
}
