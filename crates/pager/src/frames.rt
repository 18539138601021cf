// The frame table, with the order of its frames.
ghost use Rattle.pager.specs.Seats.{Seated};

use super::frame::Frame;
use order::TwoParts;

// In every such table no page is in two frames, and the frames are arranged in a top and a bottom
// that is linked both ways. That an index is below the number of frames is asked of each call: it is the caller's number. What a move leaves as it was, the parts, their slots or the contents, stands in its contract: it
// speaks of the table before and after, which no type can.
#[derive(Drop)]
pub(crate) struct FrameTable<R> {
    pub(crate) frames: Vec<Frame>,
    pub(crate) parts: TwoParts<R>,
    ghost seated: { ∥ Seated parts frames.items ∥₁ },
}
