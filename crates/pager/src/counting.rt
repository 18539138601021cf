// The counters of a pager.
ghost use Rattle.std.specs.Prelude.{◌≡◌};
ghost use Rattle.pager.specs.Counted.{faulted, driven_out, found_in};

use super::works::UseCounts;
use links::Part;

impl UseCounts {
    // Counts a use of a page whose frame is in this part.
    pub(crate) fn note_found(&mut self, part: Part)
        ensures { self.new ≡ found_in part self.old }
    {
        match part {
            Part::Unused => {}
            Part::Top => self.hits = self.hits.wrapping_add(1),
            Part::Bottom => self.reclaims = self.reclaims.wrapping_add(1),
        }
    }

    // Counts a use of a page in neither part.
    pub(crate) fn note_fault(&mut self)
        ensures { self.new ≡ faulted self.old }
    {
        self.faults = self.faults.wrapping_add(1);
    }

    // Counts a page that left the bottom at its end.
    pub(crate) fn note_eviction(&mut self)
        ensures { self.new ≡ driven_out self.old }
    {
        self.evictions = self.evictions.wrapping_add(1);
    }
}
