//! The words of a line that stand for a scheduler, a parameter or a flag.

ghost use Rattle.std.specs.Prelude.{◌≡◌, length, ◌+◌, ◌≤◌, ◌++◌};
ghost use Rattle.sched_print.specs.Line.{kind_text, param_text, flag};

use crate::line_buf::LineBuf;
use sched_model::config::SchedKind;
use sched_model::event::Param;

/// The name of a scheduler.
pub fn kind_word(kind: SchedKind) -> &'static [u8]
    ensures word { result.now ≡ kind_text kind }
    ensures length { length result.now ≤ 9 }
{
    match kind {
        SchedKind::Credit2 => b"credit2",
        SchedKind::Rtds => b"rtds",
        SchedKind::Arinc653 => b"arinc653",
        SchedKind::Null => b"null",
    }
}

/// The name of a parameter that a command sets.
pub fn param_word(param: Param) -> &'static [u8]
    ensures word { result.now ≡ param_text param }
    ensures length { length result.now ≤ 9 }
{
    match param {
        Param::Weight => b"weight",
        Param::Cap => b"cap",
        Param::Ratelimit => b"ratelimit",
        Param::Period => b"period",
        Param::Budget => b"budget",
        Param::Major => b"major",
        Param::Run => b"run",
    }
}

/// Adds 1 where the flag is set, else 0.
pub fn put_flag(is_set: bool, out: &mut LineBuf)
    requires { length out.old + 1 ≤ 192 }
    ensures bytes { out.new ≡ out.old ++ flag is_set }
    ensures length { length out.new ≡ length out.old + 1 }
{
    if is_set {
        out.put(b"1");
    } else {
        out.put(b"0");
    }
}
