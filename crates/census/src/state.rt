// What the census keeps beside the caller's tables. That a call leaves its sizes, and a refusal everything, stands in the
// contract of each call: it speaks of before and after, which no type can.
ghost use Rattle.std.specs.Prelude.{◌≡◌, ◌<◌, ◌≤◌};

use order::TwoParts;

#[derive(Drop)]
pub struct Census<R> {
    // how many pages there are
    pub(crate) pages: usize,
    // the order of the pages of a pager whose bottom is without limit
    pub(crate) parts: TwoParts<R>,
    // reads of a page that was never used before; reads and writes are two counters and no array, since each is named
    // where it is counted
    pub(crate) new_reads: u32,
    // writes of a page that was never used before
    pub(crate) new_writes: u32,
    // windows ended by settles
    pub(crate) settled: u32,
    // calls shown, settles included
    pub(crate) calls: u32,
    ghost sized: { (0 < pages) × (pages ≤ 512) },
}

impl<R> Census<R> {
    // How many pages there are.
    pub fn pages(&self) -> usize
        ensures { result ≡ self.now.pages }
    {
        self.pages
    }
}
