// The tallies of a store.
ghost use Rattle.std.specs.Prelude.{◌≡◌};
ghost use Rattle.store.specs.Counting.{one_fetch, one_save};

// How many fetches and how many saves a store has accepted, both modulo 4,294,967,296.
#[derive(Clone, Copy, PartialEq, Eq, Debug, Default)]
pub struct Tallies {
    pub fetches: u32,
    pub saves: u32,
}

impl Tallies {
    // Counts an accepted fetch.
    pub fn note_fetch(&mut self)
        ensures { self.new ≡ one_fetch self.old }
    {
        self.fetches = self.fetches.wrapping_add(1);
    }

    // Counts an accepted save.
    pub fn note_save(&mut self)
        ensures { self.new ≡ one_save self.old }
    {
        self.saves = self.saves.wrapping_add(1);
    }
}
