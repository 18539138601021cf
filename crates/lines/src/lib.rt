// One line of a recording: a header, a use or a settle.
#![tactic(auto)]

ghost use Rattle.std.specs.Prelude.{◌≡◌, IfOk};
ghost use Rattle.std.specs.Result.{result_map_both};
ghost use Rattle.lines.specs.Problems.{number_of};
ghost use Rattle.lines.specs.Kinds.{letter_of, kind_by, length_of};
ghost use Rattle.lines.specs.Parts.{parts_of};
ghost use Rattle.lines.specs.Cuts.{cut_line};
ghost use Rattle.lines.specs.Headers.{in_range, header_from, header_of};
ghost use Rattle.lines.specs.Calls.{call_from, call_of};
ghost use Rattle.lines.specs.Fit.{HeaderFit, CallFit};
ghost use Rattle.lines.specs.Meant.{call_in};
ghost use Rattle.lines.specs.declared.LineFault.TheVariants.{Field as FieldInside, Shape};

use fields::{Field, FieldFault};
use model::{Call, UseKind};
use rules::{Lottery, Oldest, TopRule};

// Why a line is no line of a recording, with the number by which each problem is told.
#[derive(Clone, Copy, PartialEq, Eq, Debug)]
pub enum LineProblem {
    // The first letter is none of H, R, W and S, or the line is empty.
    UnknownLetter = 21,
    // The line is longer or shorter than its kind.
    WrongLength = 22,
    // Line 1 is no header, or a later line is one.
    HeaderPlace = 23,
    // No byte 10 ends the line.
    NoEnd = 24,
    // The header's page count is not from 1 to 512.
    PageCount = 31,
    // The header's top is not from 1 to 64.
    TopSize = 32,
    // The header's letter is that of no rule.
    RuleLetter = 33,
    // The page of a use is not below the header's page count.
    NoSuchPage = 34,
}

impl From<LineProblem> for u8 {
    ghost from_gives = { λ p n. n ≡ number_of p };

    fn from(problem: LineProblem) -> u8 {
        problem as u8
    }
}

// What is wrong with a line: a fault of one of its fields, or a problem of its own at its place.
// Column 0 stands for the line as a whole, as it is told: an Option would only be taken apart to print that 0.
#[derive(Clone, Copy, PartialEq, Eq, Debug)]
pub enum LineFault {
    Field(FieldFault),
    Shape {
        problem: LineProblem,
        line: usize,
        column: usize,
    },
}

impl From<FieldFault> for LineFault {
    ghost from_gives = { λ f r. r ≡ FieldInside f };

    fn from(f: FieldFault) -> LineFault {
        LineFault::Field(f)
    }
}

// A line by its kind, with the borrowed parts that it is made of.
#[derive(Clone, Copy)]
pub enum Line<'a> {
    Header {
        pages: Field<'a>,
        top: Field<'a>,
        // A byte, as it stands: whether it is the letter of a rule is told after the numbers.
        rule: u8,
        seed: Field<'a>,
    },
    Use {
        kind: UseKind,
        page: Field<'a>,
    },
    Settle,
}

// The kinds of lines, of which each has its first letter and its length: what is known before a line is cut.
#[derive(Clone, Copy)]
enum LineKind {
    Header,
    Use(UseKind),
    Settle,
}

impl LineKind {
    // The kind of the lines that begin with a letter, if there is one. No `TryFrom`: the fault of an unknown letter has the line's
    // number, which the letter does not know.
    fn by(letter: u8) -> Option<LineKind>
        ensures { result ≡ kind_by letter }
    {
        match letter {
            b'H' => Some(LineKind::Header),
            b'R' => Some(LineKind::Use(UseKind::Read)),
            b'W' => Some(LineKind::Use(UseKind::Write)),
            b'S' => Some(LineKind::Settle),
            _ => None,
        }
    }

    // How long such a line is, without the byte that ends it.
    fn length(self) -> usize
        ensures { result ≡ length_of self }
    {
        match self {
            LineKind::Header => 20,
            LineKind::Use(_) => 6,
            LineKind::Settle => 1,
        }
    }
}

// What line 1 tells: the page count, the size of the top, the letter of its rule and the seed.
#[derive(Clone, Copy, PartialEq, Eq, Debug)]
pub struct Header {
    pub pages: u32,
    pub top: u32,
    // A byte and no rule: a header that is to be written may hold any, and an unknown one is refused then.
    pub rule: u8,
    pub seed: u32,
}

// A call: R or W with a page, or S with page 0.
#[derive(Clone, Copy, PartialEq, Eq, Debug)]
pub struct CallRecord {
    // A byte and no kind: a call that is to be written may hold any, and an unknown one is refused then.
    pub letter: u8,
    // 0 for a settle: another page is refused when the call is written.
    pub page: u32,
}

// The call that a record stands for. A record of a recording has no other letter than R, W and S, so that no error is left
// for a `TryFrom` to give.
impl From<CallRecord> for Call {
    ghost from_gives = { λ told call. call ≡ call_in told };

    fn from(record: CallRecord) -> Call {
        let page = record.page as usize;
        match record.letter {
            b'R' => Call::Use(UseKind::Read, page),
            b'W' => Call::Use(UseKind::Write, page),
            _ => Call::Settle,
        }
    }
}

// The letter of the lines of each kind of use. No `From`, since neither type is of this crate.
fn letter_of(kind: UseKind) -> u8
    ensures { result ≡ letter_of kind }
{
    match kind {
        UseKind::Read => b'R',
        UseKind::Write => b'W',
    }
}

// A problem of a line's own, at its place.
fn shape(problem: LineProblem, line: usize, column: usize) -> LineFault
    ensures { result ≡ Shape problem line column }
{
    LineFault::Shape {
        problem,
        line,
        column,
    }
}

// Cuts line number `line`, given without the byte that ends it, into its parts.
pub fn cut<'a>(line: usize, bytes: &'a [u8]) -> Result<Line<'a>, LineFault>
    ensures { result_map_both parts_of (λ e. e) result ≡ cut_line line bytes.now }
{
    let Some(kind) = bytes.first().and_then(|letter| LineKind::by(*letter)) else {
        return Err(shape(LineProblem::UnknownLetter, line, 1));
    };
    if matches!(kind, LineKind::Header) != (line == 1) {
        return Err(shape(LineProblem::HeaderPlace, line, 0));
    }
    if bytes.len() != kind.length() {
        return Err(shape(LineProblem::WrongLength, line, 0));
    }
    Ok(match kind {
        LineKind::Header => Line::Header {
            pages: Field::new(&bytes[1..6], line, 2),
            top: Field::new(&bytes[6..9], line, 7),
            rule: bytes[9],
            seed: Field::new(&bytes[10..20], line, 11),
        },
        LineKind::Use(kind) => Line::Use {
            kind,
            page: Field::new(&bytes[1..6], line, 2),
        },
        LineKind::Settle => Line::Settle,
    })
}

// The header, if what it tells is in range.
pub fn ranged(header: Header) -> Result<Header, LineFault>
    ensures { result ≡ in_range header }
{
    if header.pages < 1 || header.pages > 512 {
        return Err(shape(LineProblem::PageCount, 1, 6));
    }
    if header.top < 1 || header.top > 64 {
        return Err(shape(LineProblem::TopSize, 1, 9));
    }
    if header.rule == Oldest::LETTER || header.rule == Lottery::LETTER {
        Ok(header)
    } else {
        Err(shape(LineProblem::RuleLetter, 1, 10))
    }
}

// The header that a line tells: its numbers from the left, and then their ranges.
fn told_header(line: Line) -> Result<Header, LineFault>
    ensures { result ≡ header_from (parts_of line.entry) }
{
    let Line::Header {
        pages,
        top,
        rule,
        seed,
    } = line
    else {
        return Err(shape(LineProblem::HeaderPlace, 1, 0));
    };
    ranged(Header {
        pages: pages.number()?,
        top: top.number()?,
        rule,
        seed: seed.number()?,
    })
}

// The call that line `number` tells, where the header has `pages` pages.
fn told_call(number: usize, pages: u32, line: Line) -> Result<CallRecord, LineFault>
    ensures { result ≡ call_from number pages (parts_of line.entry) }
{
    match line {
        Line::Header { .. } => Err(shape(LineProblem::HeaderPlace, number, 0)),
        Line::Use { kind, page } => {
            let page = page.number()?;
            if page < pages {
                let letter = letter_of(kind);
                Ok(CallRecord { letter, page })
            } else {
                Err(shape(LineProblem::NoSuchPage, number, 6))
            }
        }
        Line::Settle => Ok(CallRecord {
            letter: b'S',
            page: 0,
        }),
    }
}

// The header on line 1, given without the byte that ends it.
pub fn header_of(bytes: &[u8]) -> Result<Header, LineFault>
    ensures told { result ≡ header_of bytes.now }
    ensures fit { IfOk result HeaderFit }
{
    told_header(cut(1, bytes)?)
}

// The call on line `line`, given without the byte that ends it, where the header has `pages` pages.
pub fn call_of(line: usize, pages: u32, bytes: &[u8]) -> Result<CallRecord, LineFault>
    ensures told { result ≡ call_of line pages bytes.now }
    ensures fit { IfOk result (CallFit pages) }
{
    told_call(line, pages, cut(line, bytes)?)
}
