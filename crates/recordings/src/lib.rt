// A whole recording: a header line, and then a line for each call.
#![tactic(auto)]

ghost use Rattle.std.specs.Prelude.{◌≡◌, ◌≤◌, Some, length, IfOk};
ghost use Rattle.lines.specs.Fit.{HeaderFit};
ghost use Rattle.recordings.specs.Tells.{line_tells, tells_of, told_text};
ghost use Rattle.recordings.specs.Passes.{end_in, first_header, later_lines, put_first};
ghost use Rattle.recordings.specs.Recorded.{Exact};
ghost use Rattle.recordings.specs.Whole.{check_recording, read_recording, table_after};
ghost use Rattle.recordings.specs.declared.RunFault.TheVariants.{Line as LineInside};

mod calls;
mod passes;
mod whole;

pub use calls::Calls;
use lines::{CallRecord, Header, LineFault, LineProblem};
use std::fmt;
pub use whole::Recording;

// What is wrong with a recording, or with the table that it is read into.
#[derive(Clone, Copy, PartialEq, Eq, Debug)]
pub enum RunFault {
    // A fault of one of its lines.
    Line(LineFault),
    // It has more than 60,000 bytes.
    TooLong,
    // The caller's table or buffer is too short.
    TableShort,
}

impl From<LineFault> for RunFault {
    ghost from_gives = { λ f r. r ≡ LineInside f };

    fn from(f: LineFault) -> RunFault {
        RunFault::Line(f)
    }
}

// A fault as it is told: its number, its line and its column.
#[derive(Clone, Copy, PartialEq, Eq, Debug)]
pub struct Told {
    // A number and no problem: a fault is told by it, whichever of the three kinds of problem it is.
    pub number: u8,
    pub line: usize,
    pub column: usize,
}

// What a line's fault tells.
impl From<LineFault> for Told {
    ghost from_gives = { λ f t. t ≡ line_tells f };

    fn from(fault: LineFault) -> Told {
        match fault {
            LineFault::Field(f) => Told {
                number: u8::from(f.problem),
                line: f.line,
                column: f.column,
            },
            LineFault::Shape {
                problem,
                line,
                column,
            } => Told {
                number: u8::from(problem),
                line,
                column,
            },
        }
    }
}

// What the fault tells; one of no line is told at line 0, column 0.
impl From<RunFault> for Told {
    ghost from_gives = { λ f t. t ≡ tells_of f };

    fn from(fault: RunFault) -> Told {
        match fault {
            RunFault::Line(fault) => Told::from(fault),
            RunFault::TooLong => Told {
                number: 35,
                line: 0,
                column: 0,
            },
            RunFault::TableShort => Told {
                number: 5,
                line: 0,
                column: 0,
            },
        }
    }
}

// The number, the line and the column, each at the right of its columns.
impl fmt::Display for Told {
    ghost output = { λ t. Some (told_text t) };

    fn fmt<W: fmt::Write>(&self, f: &mut fmt::Formatter<W>) -> fmt::Result {
        write!(f, "{:>4}{:>6}{:>4}", self.number, self.line, self.column)
    }
}

// What a recording says in short: its header, and how many calls it has.
#[derive(Clone, Copy, PartialEq, Eq, Debug)]
pub struct Summary {
    pub header: Header,
    pub calls: usize,
}

// The most bytes that a recording has.
pub const LONGEST: usize = 60_000;

// One byte more than the longest recording: a program need not read on, as what is longer is unfit, whatever follows.
pub const ENOUGH: u64 = LONGEST as u64 + 1;

// Where the first byte 10 stands. The loop over the bytes with their places is a form that the product asks for.
pub(crate) fn line_end(bytes: &[u8]) -> Option<usize>
    ensures { result ≡ end_in bytes.now }
{
    for (i, b) in bytes.iter().enumerate() {
        if *b == b'\n' {
            return Some(i);
        }
    }
    None
}

// The header on line 1.
#[tactic(auto, unfolding(crate::specs::Passes::first_header))]
pub(crate) fn read_first(bytes: &[u8]) -> Result<Header, LineFault>
    ensures told { result ≡ first_header bytes.now }
    ensures fit { IfOk result HeaderFit }
{
    if let Some(end) = line_end(bytes) {
        return lines::header_of(&bytes[..end]);
    }
    let problem = if bytes.is_empty() {
        LineProblem::HeaderPlace
    } else {
        LineProblem::NoEnd
    };
    Err(LineFault::Shape {
        problem,
        line: 1,
        column: 0,
    })
}

// What stands after line 1, where the calls are; nothing where no byte 10 ends that line.
pub fn after_header<'a>(bytes: &'a [u8]) -> &'a [u8]
    ensures { result.now ≡ later_lines bytes.now }
{
    match line_end(bytes) {
        Some(end) => &bytes[end + 1..],
        None => &[],
    }
}

// Checks a recording to its end, and tells its header and how many calls it has.
pub fn check(bytes: &[u8]) -> Result<Summary, RunFault>
    ensures told { result ≡ check_recording bytes.now }
    ensures exact { Exact bytes.now result }
{
    Ok(Recording::parse(bytes)?.summary())
}

// Puts calls in order at the front of a table that has room for them.
fn write_calls(told: Calls, table: &mut [CallRecord])
    requires { length told ≤ length table.old }
    ensures { table.new ≡ put_first told.entry table.old }
{
    // By an index: of a table that `iter_mut` lent to a `zip` a proof knows the length alone.
    for (place, call) in told.enumerate() {
        table[place] = call;
    }
}

// Checks a recording to its end, and then puts its calls in order at the front of the table, which is the caller's, with a count
// of them, since the product has no heap here.
// A refusal leaves the table as it was.
pub fn read(bytes: &[u8], calls: &mut [CallRecord]) -> Result<Summary, RunFault>
    ensures answer { result ≡ read_recording bytes.now (length calls.old) }
    ensures table { calls.new ≡ table_after bytes.now calls.old }
{
    let recording = Recording::parse(bytes)?;
    let summary = recording.summary();
    if calls.len() < summary.calls {
        return Err(RunFault::TableShort);
    }
    write_calls(recording.calls(), calls);
    Ok(summary)
}
