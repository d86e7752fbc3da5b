//! The lines of a report are written.

ghost use Rattle.std.specs.Prelude.{◌≡◌, ◌+◌, ◌≤◌, ◌++◌, [], length, decimal};
ghost use Rattle.sched_report.specs.Lines.{text_of_unit, text_of_core, text_of_end};

use crate::line::{CoreLine, UnitLine};
use itoa::Buffer;
use sched_base::Moment;
use sched_print::LineBuf;

/// Adds these bytes and then the digits of a number of up to 128 bits, at most 40.
fn put_large_field(before: &[u8], number: u128, out: &mut LineBuf)
    requires { length out.old + length before.now + 40 ≤ 192 }
    ensures bytes { out.new ≡ out.old ++ before.now ++ decimal number }
    ensures length { length out.new ≤ length out.old + length before.now + 40 }
{
    let mut buffer = Buffer::new();
    let digits = buffer.format(number);
    out.put(before);
    out.put(digits.as_bytes());
}

/// Writes the line of a unit, with its newline, into an empty buffer.
pub fn put_unit_line(line: &UnitLine, out: &mut LineBuf)
    requires { out.old ≡ [] }
    ensures { out.new ≡ text_of_unit line.now }
{
    out.put_two_fields(
        b"unit d",
        u64::from(line.unit.dom.0),
        b"u",
        u64::from(line.unit.n),
    );
    put_large_field(b" run ", line.run, out);
    out.put_two_fields(
        b" picks ",
        u64::from(line.picks),
        b" repl ",
        u64::from(line.repl),
    );
    put_large_field(b" late ", line.late, out);
    out.put(b"\n");
}

/// Writes the line of a core, with its newline, into an empty buffer.
pub fn put_core_line(line: &CoreLine, out: &mut LineBuf)
    requires { out.old ≡ [] }
    ensures { out.new ≡ text_of_core line.now }
{
    out.put_field(b"core c", u64::from(line.core.0));
    put_large_field(b" run ", line.run, out);
    put_large_field(b" idle ", line.idle, out);
    out.put_field(b" decides ", u64::from(line.decides));
    out.put(b"\n");
}

/// Writes the last line of a report, how many entries there are and the moment of the last, with its newline, into an empty buffer.
pub fn put_last_line(entries: u32, end: Moment, out: &mut LineBuf)
    requires { out.old ≡ [] }
    ensures { out.new ≡ text_of_end entries end.0 }
{
    out.put_two_fields(b"entries ", u64::from(entries), b" end ", end.0);
    out.put(b"\n");
}
