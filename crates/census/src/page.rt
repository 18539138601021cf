// The page table: one record for each page.
ghost use Rattle.std.specs.Prelude.{◌≡◌, None, Option};
ghost use Rattle.links.specs.declared.Part.TheVariants.{Unused};
ghost use Rattle.std.proofs.Common.{rules};

use links::{Linked, Links};

// What is known of one page.
#[derive(Clone, Copy, PartialEq, Eq, Debug, Default)]
pub struct PageRecord {
    // the next older and the next newer page of the bottom, and where the page is; a page that was never used is in no part
    pub(crate) links: Links,
    // the mark of the page's open window, as of the page's last use; none where no window is open
    pub mark: Option<usize>,
}

impl PageRecord {
    // The record of a page that was never used.
    pub fn unused() -> PageRecord
        ensures { result ≡ record { links = record { next = None; prev = None; part = Unused }; mark = None } }
    {
        PageRecord::default()
    }
}

impl Linked for PageRecord {
    ghost links = { λ r. r.links };

    ghost rest = { λ r. record { links = record { next = None; prev = None; part = Unused }; mark = r.mark } };

    ghost none = { Prim.search rules };

    ghost whole = { Prim.search rules };

    fn links(&self) -> Links {
        self.links
    }

    fn set_links(&mut self, to: Links) {
        self.links = to;
    }
}
