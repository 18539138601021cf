// Looking for a frame.
ghost use Rattle.std.specs.Prelude.{◌≡◌, ℕ, ◌<◌, true, length, MatchOption};
ghost use Rattle.links.specs.declared.Part.TheVariants.{Unused};
ghost use Rattle.pager.specs.Frames.{at, taken, In, Absent};

use super::frame::Frame;

// The frame that holds a page.
pub(crate) fn frame_of(frames: &[Frame], page: usize) -> Option<usize>
    ensures { MatchOption result (Absent frames.now page) (λ i. In frames.now page i) }
{
    frames
        .iter()
        .position(|frame| frame.is_taken() && frame.page == page)
}

// A frame that holds no page.
pub(crate) fn free_frame(frames: &[Frame]) -> Option<usize>
    ensures { MatchOption result ((i : ℕ) → i < length frames.now → taken (at frames.now i).links.part ≡ true) (λ i. (i < length frames.now) × ((at frames.now i).links.part ≡ Unused)) }
{
    frames.iter().position(|frame| !frame.is_taken())
}
