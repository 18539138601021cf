// The lines after the header, one by one, and the calls that they tell.
ghost use Rattle.std.specs.Prelude.{◌≡◌, ◌+◌, ◌^◌, ◌<◌, ◌≤◌, length};
ghost use Rattle.recordings.specs.InTurn.{told_in};

use crate::line_end;
use lines::{CallRecord, LineFault, LineProblem};

// What each line tells in its turn: a call, or the fault of the line.
#[derive(Drop)]
pub(crate) struct Lines<'a> {
    pages: u32,
    // The number of the next line.
    line: usize,
    // The bytes from that line on.
    rest: &'a [u8],
    ghost numbered: { line + length rest.now < 2 ^ 63 },
}

impl<'a> Lines<'a> {
    ghost use Rattle.recordings.specs.Left.{lines_left};

    // The lines after a header with so many pages, which begin with line 2.
    pub(crate) fn new(pages: u32, rest: &'a [u8]) -> Lines<'a>
        requires { length rest.now ≤ 60000 }
        ensures { lines_left result ≡ told_in pages 2 rest.now }
    {
        Lines {
            pages,
            line: 2,
            rest,
        }
    }
}

impl<'a> Iterator for Lines<'a> {
    ghost use Rattle.std.specs.Iterator.{YieldsFirst, item_count};
    ghost use Rattle.recordings.specs.Left.{lines_left};

    type Item = Result<CallRecord, LineFault>;

    ghost next_gives = { YieldsFirst lines_left };

    ghost remaining = { item_count lines_left };

    fn next(&mut self) -> Option<Result<CallRecord, LineFault>> {
        if self.rest.is_empty() {
            return None;
        }
        let Some(end) = line_end(self.rest) else {
            self.rest = &[];
            return Some(Err(LineFault::Shape {
                problem: LineProblem::NoEnd,
                line: self.line,
                column: 0,
            }));
        };
        let told = lines::call_of(self.line, self.pages, &self.rest[..end]);
        self.rest = &self.rest[end + 1..];
        self.line += 1;
        Some(told)
    }
}
