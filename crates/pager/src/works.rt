// The works of a pager.
use super::frames::FrameTable;

// How often a page was used in the top, in the bottom and in neither, and how often one left the bottom at its end; all modulo 2^32.
#[derive(Clone, Copy, Default)]
pub(crate) struct UseCounts {
    // uses of a page in the top
    pub(crate) hits: u32,
    // uses of a page in the bottom
    pub(crate) reclaims: u32,
    // uses of a page in neither part
    pub(crate) faults: u32,
    // pages that left the bottom at its end
    pub(crate) evictions: u32,
}

// A store below with the frames that hold some of its pages. A use moves frames and bytes in several steps; that the works are
// booked is true between uses, so that each step asks for it, and for a page below the count, and says which frame has the page.
// A step asks for it truncated: it needs no model by name, and says of each that is shown how it goes on. Where it calls the
// store below it asks that this is open, and hands that on.
#[derive(Drop)]
pub(crate) struct Works<S, R> {
    pub(crate) below: S,
    pub(crate) table: FrameTable<R>,
    pub(crate) counts: UseCounts,
}
