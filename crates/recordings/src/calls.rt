// The calls of lines that were checked.
ghost use Rattle.std.specs.Prelude.{◌≡◌};
ghost use Rattle.std.specs.Result.{ok_prefix};
ghost use Rattle.recordings.specs.Left.{lines_left};

use crate::passes::Lines;
use lines::CallRecord;
use std::marker::Model;

// The calls of lines of which none is at fault, in order.
#[derive(Drop)]
pub struct Calls<'a> {
    lines: Lines<'a>,
}

impl<'a> Model for Calls<'a> {
    ghost use Rattle.std.specs.Prelude.{◌≡◌, true, is_ok, List};
    ghost use Rattle.std.specs.List.{list_all};
    ghost use Rattle.lines.specs.declared.CallRecord.{CallRecord};
    ghost use Rattle.std.specs.Result.{ok_prefix};
    ghost use Rattle.recordings.specs.Left.{lines_left};

    ghost Value = { List CallRecord };

    ghost view = { λ a. ok_prefix (lines_left a.lines) };

    ghost invariant = { λ a. list_all is_ok (lines_left a.lines) ≡ true };
}

impl<'a> Calls<'a> {
    ghost use Rattle.std.specs.Prelude.{◌≡◌, true, is_ok};
    ghost use Rattle.std.specs.List.{list_all};

    // The calls of these lines.
    pub(crate) fn new(lines: Lines<'a>) -> Calls<'a>
        requires { list_all is_ok (lines_left lines) ≡ true }
        ensures { result ≡ ok_prefix (lines_left lines.entry) }
    {
        Calls { lines }
    }
}

impl<'a> Iterator for Calls<'a> {
    ghost use Rattle.std.specs.Iterator.{YieldsFirst, item_count};

    type Item = CallRecord;

    ghost next_gives = { YieldsFirst (λ cs. cs) };

    ghost remaining = { item_count (λ cs. cs) };

    fn next(&mut self) -> Option<CallRecord> {
        Some(self.lines.next()?.unwrap())
    }
}
