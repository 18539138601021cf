// What a pager keeps.
use super::works::Works;
use store::Tallies;

// Pages of a store below in frames, some of them in the slots of a top and the others in a bottom, with the reads and
// the writes that were accepted.
#[derive(Drop)]
pub struct Pager<S, R> {
    pub(crate) works: Works<S, R>,
    // how many pages the store below has, so that a call that stays in the frames asks nothing below
    pub(crate) pages: usize,
    pub(crate) tallies: Tallies,
}
