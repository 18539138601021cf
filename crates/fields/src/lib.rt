// A number in the columns of a recording.
#![tactic(auto)]

ghost use Rattle.std.specs.Prelude.{◌≡◌, ◌+◌, ◌^◌, ◌<◌, length, if◌then◌else◌, Some, None, nat_lt};
ghost use Rattle.std.specs.Int.{is_in_range};
ghost use Rattle.std.specs.List.{suffix_len};
ghost use Rattle.fields.specs.Problems.{number_of};
ghost use Rattle.fields.specs.Places.{fault_at};
ghost use Rattle.fields.specs.Numbers.{read_number, read_on};
ghost use Rattle.fields.specs.Justified.{Exact};

// Why the bytes of a field are no number, with the number by which each problem is told.
#[derive(Clone, Copy, PartialEq, Eq, Debug)]
pub enum NumberProblem {
    // The last byte is no digit, as in a field of spaces alone.
    NoDigit = 11,
    // A byte to the left of the digits is no space.
    Stray = 12,
    // There are several digits, and the first is 0.
    LeadingZero = 13,
    // The number is above 4,294,967,295.
    TooLarge = 14,
}

impl From<NumberProblem> for u8 {
    ghost from_gives = { λ p n. n ≡ number_of p };

    fn from(problem: NumberProblem) -> u8 {
        problem as u8
    }
}

// A problem of a field, at the line and the column of the byte that shows it. A type of its own, since it is handed on whole
// inside a line's fault: one type over both kinds of problem would be taken apart by its kind wherever it is told.
#[derive(Clone, Copy, PartialEq, Eq, Debug)]
pub struct FieldFault {
    pub problem: NumberProblem,
    pub line: usize,
    pub column: usize,
}

// Some columns of one line of a recording, with the place of the first. Columns count from 1.
#[derive(Clone, Copy)]
pub struct Field<'a> {
    pub bytes: &'a [u8],
    pub line: usize,
    pub column: usize,
}

impl<'a> Field<'a> {
    // The columns of a line that begin with `column`.
    pub fn new(bytes: &'a [u8], line: usize, column: usize) -> Field<'a>
        ensures { (result.bytes.now ≡ bytes.now) × (result.line ≡ line) × (result.column ≡ column) }
    {
        Field {
            bytes,
            line,
            column,
        }
    }

    // A fault of the byte at place `at` of the field.
    fn fault(&self, problem: NumberProblem, at: usize) -> FieldFault
        ensures { result ≡ fault_at problem self.now.line self.now.column at }
    {
        FieldFault {
            problem,
            line: self.line,
            column: self.column.saturating_add(at),
        }
    }

    // The number in the field, which stands at its right after spaces, with no leading zero.
    // It is looked for in the order in which its faults are told.
    #[tactic(auto, unfolding(crate::specs::Numbers::read_number))]
    pub fn number(&self) -> Result<u32, FieldFault>
        ensures reads { result ≡ read_number self.now.line self.now.column self.now.bytes.now }
        ensures exact { Exact self.now.bytes.now result }
    {
        let last = self.bytes.len().saturating_sub(1);
        let from = run_from(self.bytes, b'0', b'9');
        if from == self.bytes.len() {
            return Err(self.fault(NumberProblem::NoDigit, last));
        }
        let spaces = run_from(&self.bytes[0..from], b' ', b' ');
        if spaces > 0 {
            return Err(self.fault(NumberProblem::Stray, spaces - 1));
        }
        let digits = &self.bytes[from..];
        if digits.len() > 1 && digits[0] == b'0' {
            return Err(self.fault(NumberProblem::LeadingZero, from));
        }
        // Written out: with `ok_or_else` the proof that the answer is the number or this fault did not close.
        match value_of(digits) {
            Some(value) => Ok(value),
            None => Err(self.fault(NumberProblem::TooLarge, last)),
        }
    }
}

// Where the run of bytes from `low` to `high` begins that ends `bytes`. The loop over the field's bytes with
// their places is a form that the product asks for.
fn run_from(bytes: &[u8], low: u8, high: u8) -> usize
    ensures { result + suffix_len (is_in_range low high) bytes.now ≡ length bytes.now }
{
    let mut from = 0;
    for (i, b) in bytes.iter().enumerate() {
        if *b < low || *b > high {
            from = i + 1;
        }
    }
    from
}

// The number that `digits` write, if it has at most 32 bits. No `parse`, which takes text, and a plus sign too.
fn value_of(digits: &[u8]) -> Option<u32>
    ensures { result ≡ (if nat_lt (read_on 0 digits.now) (2 ^ 32) then Some (read_on 0 digits.now) else None) }
{
    let mut value: u32 = 0;
    for b in digits {
        let tens = value.checked_mul(10)?;
        value = tens.checked_add(u32::from(b.saturating_sub(b'0')))?;
    }
    Some(value)
}
