// Why the census refuses a call.
ghost use Rattle.std.specs.Prelude.{◌≡◌};
ghost use Rattle.census.specs.Numbers.{number_of};

// The reasons, with the number by which each is known.
#[derive(Clone, Copy, PartialEq, Eq, Debug)]
pub enum CensusRefusal {
    // the page count is not from 1 to 512
    PageCount = 31,
    // the top has no slot, or more than 64
    TopSize = 4,
    // a table is too short for the page count
    ShortTable = 5,
    // the page is not below the page count
    NoSuchPage = 2,
    // the bottom size is above the page count
    NoSuchRow = 6,
}

impl From<CensusRefusal> for u8 {
    ghost from_gives = { λ refusal n. n ≡ number_of refusal };

    fn from(refusal: CensusRefusal) -> u8 {
        refusal as u8
    }
}
