// A whole recording that was checked.
ghost use Rattle.std.specs.Prelude.{◌≡◌, ◌≤◌, [], length};
ghost use Rattle.std.specs.List.{AllByRecursion};
ghost use Rattle.lines.specs.Fit.{HeaderFit, CallFit};
ghost use Rattle.recordings.specs.InTurn.{all_calls};
ghost use Rattle.recordings.specs.Left.{lines_left};
ghost use Rattle.recordings.specs.Passes.{counted};
ghost use Rattle.recordings.specs.Whole.{calls_of, summary_of};

use crate::calls::Calls;
use crate::passes::Lines;
use crate::{LONGEST, RunFault, Summary, after_header, read_first};
use lines::{Header, LineFault};
use std::marker::Model;

// A recording that was checked to its end: its header, and the lines of its calls.
#[derive(Drop)]
pub struct Recording<'a> {
    header: Header,
    rest: &'a [u8],
    calls: usize,
}

impl<'a> Model for Recording<'a> {
    ghost use Rattle.std.specs.Result.{ok_prefix};
    ghost use Rattle.recordings.specs.InTurn.{told_in};
    ghost use Rattle.recordings.specs.Checked.{IsChecked};
    ghost use Rattle.recordings.specs.Whole.{Recording};

    ghost Value = { Recording };

    ghost view = { λ a. record { header = a.header; calls = ok_prefix (told_in a.header.pages 2 a.rest.now) } };

    ghost invariant = { λ a. IsChecked a.header a.rest.now a.calls };
}

impl<'a> Recording<'a> {
    // The recording that some bytes are. Its faults are looked for in the order in which they are told.
    pub fn parse(bytes: &'a [u8]) -> Result<Recording<'a>, RunFault>
        ensures { result ≡ calls_of bytes.now }
    {
        if bytes.len() > LONGEST {
            return Err(RunFault::TooLong);
        }
        let header = read_first(bytes)?;
        let rest = after_header(bytes);
        let calls = count_calls(Lines::new(header.pages, rest))?;
        Ok(Recording {
            header,
            rest,
            calls,
        })
    }

    // What line 1 tells.
    pub fn header(&self) -> Header
        ensures told { result ≡ self.now.header }
        ensures fit { HeaderFit result }
    {
        self.header
    }

    // The header, and how many calls there are.
    pub fn summary(&self) -> Summary
        ensures { result ≡ summary_of self.now }
    {
        Summary {
            header: self.header,
            calls: self.calls,
        }
    }

    // The calls, in order.
    pub fn calls(&self) -> Calls<'a>
        ensures told { result ≡ self.now.calls }
        ensures fit { AllByRecursion (CallFit self.now.header.pages) result }
    {
        Calls::new(Lines::new(self.header.pages, self.rest))
    }
}

// Counts the calls that the lines tell, of which none may be at fault.
fn count_calls(lines: Lines) -> Result<usize, LineFault>
    ensures { result ≡ counted (all_calls [] (lines_left lines.entry)) }
{
    let mut found = 0;
    for call in lines {
        call?;
        found += 1;
    }
    Ok(found)
}
