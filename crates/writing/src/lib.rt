// A recording written from its header and its calls.
#![tactic(auto)]

ghost use Rattle.std.specs.Prelude.{◌≡◌, ◌+◌, ◌≤◌, length, decimal, IfOk};
ghost use Rattle.std.specs.Result.{result_map_both};
ghost use Rattle.std.specs.List.{AllByRecursion};
ghost use Rattle.fields.specs.Justified.{justified};
ghost use Rattle.lines.specs.Fit.{HeaderFit};
ghost use Rattle.recordings.specs.Whole.{table_after};
ghost use Rattle.writing.specs.Text.{header_text, call_text, calls_text, Narrow, text_first};
ghost use Rattle.writing.specs.Refusals.{call_in_range, calls_in_range};
ghost use Rattle.writing.specs.Laws.{ReadsBack, SameBytes, SameAgain, OnlyWritten};
ghost use Rattle.writing.specs.Rewritten.{rewrite_recording, if_accepted, WrittenAgain};
ghost use Rattle.writing.specs.Whole.{short_length, written_text, write_recording, buffer_after};

use lines::{CallRecord, Header, LineFault, LineProblem};
use recordings::{LONGEST, Recording, RunFault};
use std::alloc::{AllocError, Global};

// The bytes of line 1, the byte that ends it included.
const HEADER_LENGTH: usize = 21;

// Puts a number at the right of its columns, after spaces.
fn put_number(value: u32, columns: &mut [u8])
    requires { length (decimal value) ≤ length columns.old }
    ensures { columns.new ≡ justified (length columns.old) value }
{
    let start = itoa::write_digits(value as u64, columns, columns.len());
    columns[..start].fill(b' ');
}

// Puts line 1 at the front of the bytes. At its fixed columns, in the caller's buffer: the product wants no heap here, and a
// format would want a writer of its own.
fn put_header(header: Header, bytes: &mut [u8])
    requires fit { HeaderFit header }
    requires room { 21 ≤ length bytes.old }
    ensures { bytes.new ≡ text_first (header_text header) bytes.old }
{
    bytes[0] = b'H';
    put_number(header.pages, &mut bytes[1..6]);
    put_number(header.top, &mut bytes[6..9]);
    bytes[9] = header.rule;
    put_number(header.seed, &mut bytes[10..20]);
    bytes[20] = b'\n';
}

// Puts the line of a call at the front of the bytes, and gives its length. That the page has at most 5 digits is
// asked of each call: the calls are the caller's own, and a type that held the fact would need a copy of them.
fn put_call(call: CallRecord, bytes: &mut [u8]) -> usize
    requires narrow { Narrow call }
    requires room { length (call_text call) ≤ length bytes.old }
    ensures length { result ≡ length (call_text call) }
    ensures bytes { bytes.new ≡ text_first (call_text call) bytes.old }
{
    bytes[0] = call.letter;
    if call.letter == b'S' {
        bytes[1] = b'\n';
        return 2;
    }
    put_number(call.page, &mut bytes[1..6]);
    bytes[6] = b'\n';
    7
}

// Whether a call can stand on line `line`, where the header has `pages` pages.
fn check_call(line: usize, pages: u32, call: CallRecord) -> Result<(), LineFault>
    ensures { result ≡ call_in_range line pages call }
{
    let fits = match call.letter {
        b'R' | b'W' => call.page < pages,
        b'S' => call.page == 0,
        _ => {
            return Err(LineFault::Shape {
                problem: LineProblem::UnknownLetter,
                line,
                column: 1,
            });
        }
    };
    if fits {
        return Ok(());
    }
    Err(LineFault::Shape {
        problem: LineProblem::NoSuchPage,
        line,
        column: 6,
    })
}

// Whether every call can stand in a recording of `pages` pages; the first stands on line 2.
fn check_calls(pages: u32, calls: &[CallRecord]) -> Result<(), LineFault>
    ensures { result ≡ calls_in_range 2 pages calls.now }
{
    for (i, call) in calls.iter().enumerate() {
        check_call(i + 2, pages, *call)?;
    }
    Ok(())
}

// How long the line of a call is, asked before anything is written.
fn call_length(call: CallRecord) -> usize
    requires { Narrow call }
    ensures { result ≡ length (call_text call) }
{
    if call.letter == b'S' { 2 } else { 7 }
}

// How long a recording with these calls is, if that is not too long.
fn text_length(calls: &[CallRecord]) -> Result<usize, RunFault>
    requires { AllByRecursion Narrow calls.now }
    ensures { result ≡ short_length (21 + length (calls_text calls.now)) }
{
    let mut length = HEADER_LENGTH;
    for call in calls {
        length += call_length(*call);
        if length > LONGEST {
            return Err(RunFault::TooLong);
        }
    }
    Ok(length)
}

// Puts the lines of the calls at the front of the bytes, one after another. The place of the next line is
// kept by hand, since the lines differ in length: to lend each call the bytes that are left is no plainer.
fn put_calls(calls: &[CallRecord], bytes: &mut [u8])
    requires narrow { AllByRecursion Narrow calls.now }
    requires room { length (calls_text calls.now) ≤ length bytes.old }
    ensures { bytes.new ≡ text_first (calls_text calls.now) bytes.old }
{
    let mut at = 0;
    for call in calls {
        at += put_call(*call, &mut bytes[at..]);
    }
}

// Checks the header, then the calls and then the length, and gives the length of the text.
fn measure(header: Header, calls: &[CallRecord]) -> Result<usize, RunFault>
    ensures { result ≡ result_map_both length (λ e. e) (written_text header calls.now) }
{
    lines::ranged(header)?;
    check_calls(header.pages, calls)?;
    text_length(calls)
}

// Writes a recording into the buffer, which is the caller's, and gives its length, since the product has no heap here; the rest
// of a longer buffer is left.
// A refusal writes nothing.
pub fn write(header: Header, calls: &[CallRecord], buffer: &mut [u8]) -> Result<usize, RunFault>
    ensures answer { result ≡ write_recording header calls.now (length buffer.old) }
    ensures buffer { buffer.new ≡ buffer_after header calls.now buffer.old }
    ensures back { ReadsBack result buffer.new header calls.now }
{
    let length = measure(header, calls)?;
    if buffer.len() < length {
        return Err(RunFault::TableShort);
    }
    put_header(header, buffer);
    put_calls(calls, &mut buffer[HEADER_LENGTH..]);
    Ok(length)
}

// Reads a recording into the table, and writes what it says into the buffer: the same bytes, so that
// a buffer that is too short is known before anything is written.
// A refusal leaves the table and the buffer as they were.
#[tactic(auto, using(crate::proofs::Laws::same_again, crate::proofs::Laws::only_written))]
pub fn rewrite(bytes: &[u8], calls: &mut [CallRecord], buffer: &mut [u8]) -> Result<usize, RunFault>
    ensures answer { result ≡ rewrite_recording bytes.now (length calls.old) (length buffer.old) }
    ensures table { calls.new ≡ if_accepted result (table_after bytes.now calls.old) calls.old }
    ensures buffer { buffer.new ≡ if_accepted result (text_first bytes.now buffer.old) buffer.old }
    ensures same { SameBytes result buffer.new bytes.now }
    ensures again { SameAgain }
    ensures only { OnlyWritten }
{
    if buffer.len() < bytes.len() {
        recordings::check(bytes)?;
        return Err(RunFault::TableShort);
    }
    let summary = recordings::read(bytes, calls)?;
    write(summary.header, &calls[..summary.calls], buffer)
}

// A recording read and written again in memory of its own: the same bytes. Two results, since a fault is the recording's, and
// told, and want of memory ends what asked for it.
pub fn written_again(heap: Global, bytes: &[u8]) -> Result<Result<Vec<u8>, RunFault>, AllocError>
    ensures { IfOk result (λ answer. WrittenAgain (result_map_both (λ text. text.items) (λ e. e) answer) bytes.now) }
{
    let recording = match Recording::parse(bytes) {
        Ok(recording) => recording,
        Err(fault) => return Ok(Err(fault)),
    };
    let mut calls = Vec::with_capacity(heap, recording.summary().calls)?;
    for call in recording.calls() {
        calls.push(call)?;
    }
    let mut text = vec![in heap; 0; bytes.len()]?;
    match write(recording.header(), &calls, &mut text) {
        Ok(_length) => Ok(Ok(text)),
        Err(fault) => Ok(Err(fault)),
    }
}
