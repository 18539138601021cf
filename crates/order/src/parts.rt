// The two parts of the order: the slots of the top, and the ends of the bottom in the lent table.
ghost use Rattle.std.specs.Prelude.{◌≡◌, ◌<◌, ◌≤◌};
ghost use Rattle.arrayvec.specs.ArrayVec.{array_vec_len};

use arrayvec::ArrayVec;
use links::Ends;

// A top of `slots` slots, of which the first ones hold a page each, the bottom, and the rule that names a slot of a full top.
// That a move leaves `slots`, and the rest of each record, stands in the contract of each move: it speaks of before and after,
// which no type can.
#[derive(Drop)]
pub struct TwoParts<R> {
    pub(crate) rule: R,
    pub(crate) slots: u32,
    pub(crate) top: ArrayVec<usize, 64>,
    pub(crate) bottom: Ends,
    ghost sized: { (0 < slots) × (slots ≤ 64) × (array_vec_len top ≤ slots) },
}

impl<R> TwoParts<R> {
    // How many slots the top has.
    pub fn slots(&self) -> u32
        ensures { result ≡ self.now.slots }
    {
        self.slots
    }

    // The newest page of the bottom.
    pub fn newest(&self) -> Option<usize>
        ensures { result ≡ self.now.bottom.first }
    {
        self.bottom.first
    }
}
