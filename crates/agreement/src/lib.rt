// The promise that joins the pager, the census and plain LRU, as a law over every list of calls.
#![tactic(auto)]

ghost use Rattle.std.specs.Prelude.{◌≡◌, true};
ghost use Rattle.agreement.specs.Law.{Agreement};
ghost use Rattle.agreement.specs.Bigger.{BiggerHolds};

pub mod cases;

// The law holds, and a longer bottom never holds less.
pub fn agreement_stands() -> bool
    ensures answer { result ≡ true }
    ensures law { Agreement }
    ensures bigger { BiggerHolds }
{
    true
}
