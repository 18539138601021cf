// Why a pager is not opened.
ghost use Rattle.std.specs.Prelude.{◌≡◌};
ghost use Rattle.pager.specs.Openings.{refusal_number};

// The reasons, with the number by which each is known.
#[derive(Clone, Copy, PartialEq, Eq, Debug)]
pub enum PagerRefusal {
    // The top has no slot, or there would be more than 64 frames.
    FrameCount = 4,
    // There is no memory for the frames.
    NoMemory = 8,
}

impl From<PagerRefusal> for u32 {
    ghost from_gives = { λ e n. n ≡ refusal_number e };

    fn from(refusal: PagerRefusal) -> u32 {
        refusal as u32
    }
}
