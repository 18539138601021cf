// Cases that were worked out by hand, held against the models.
ghost use Rattle.std.specs.Prelude.{◌≡◌, true};
ghost use Rattle.agreement.specs.Cases.{MarkedCases};

// The cases that were worked out by hand hold.
pub fn marked_cases_hold() -> bool
    ensures answer { result ≡ true }
    ensures cases { MarkedCases }
{
    true
}
