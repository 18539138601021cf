// Opening a pager.
ghost use Rattle.std.specs.Prelude.{◌≡◌, replicate, IfOk, Ok, MatchResult};
ghost use Rattle.pager.specs.Frames.{idle};
ghost use Rattle.pager.specs.Openings.{may_page, RefusedFor};
ghost use Rattle.pager.specs.Settings.{untouched};
ghost use Rattle.pager.specs.Shows.{Shows};
ghost use Rattle.pager.specs.Ready.{Ready};

use super::frame::Frame;
use super::frames::FrameTable;
use super::refusal::PagerRefusal;
use super::state::Pager;
use super::works::{UseCounts, Works};
use order::TwoParts;
use rules::TopRule;
use std::alloc::{AllocError, Global};
use store::{PageStore, Tallies};

// The most frames that a pager may have.
pub const MOST_FRAMES: usize = 64;

// A pager that was not opened: why, and the store that it would have stood on.
#[derive(Drop)]
pub struct NotOpened<S> {
    pub why: PagerRefusal,
    pub below: S,
}

// Whether a pager opens with `slots` slots in its top and at most `bottom` pages in its bottom.
pub fn may_page(slots: u32, bottom: usize) -> Result<(), PagerRefusal>
    ensures { result ≡ may_page slots bottom }
{
    if slots == 0 || slots as usize > MOST_FRAMES || bottom > MOST_FRAMES - slots as usize {
        return Err(PagerRefusal::FrameCount);
    }
    Ok(())
}

// So many frames that hold no page.
fn lay_frames(heap: Global, count: usize) -> Result<Vec<Frame>, AllocError>
    ensures { IfOk result (λ v. v.items ≡ replicate count idle) }
{
    vec![in heap; Frame::idle(); count]
}

impl<S: PageStore, R: TopRule + Drop> Pager<S, R> {
    // A pager over `below` with `slots` slots in its top and at most `bottom` pages in its bottom, which it fills as pages are used.
    // It holds no page yet, and has fetched and saved nothing below. A refusal gives the store back as it was.
    pub fn open(
        heap: Global,
        below: S,
        rule: R,
        slots: u32,
        bottom: usize,
    ) -> Result<Pager<S, R>, NotOpened<S>>
        requires { S.PageStore.opened below }
        ensures answer { MatchResult result (λ _. may_page slots bottom ≡ Ok tt) (λ e. RefusedFor e.why slots bottom × (e.below ≡ below)) }
        ensures ready { IfOk result (λ p. Ready S.PageStore.opened S.PageStore.meaning R.TopRule.told p) }
        ensures fresh { IfOk result (λ p. (p.works.below ≡ below) × (p.tallies ≡ record { fetches = 0; saves = 0 }) × Shows R.TopRule.told S.PageStore.meaning (record { first = S.PageStore.meaning below; slots = slots; bottom = bottom }) p.works (untouched (record { first = S.PageStore.meaning below; slots = slots; bottom = bottom }) (R.TopRule.told rule))) }
    {
        if let Err(why) = may_page(slots, bottom) {
            return Err(NotOpened { why, below });
        }
        let Ok(frames) = lay_frames(heap, slots as usize + bottom) else {
            let why = PagerRefusal::NoMemory;
            return Err(NotOpened { why, below });
        };
        let pages = below.pages();
        let table = FrameTable {
            frames,
            parts: TwoParts::make(rule, slots),
        };
        Ok(Pager {
            works: Works {
                below,
                table,
                counts: UseCounts::default(),
            },
            pages,
            tallies: Tallies::default(),
        })
    }
}
