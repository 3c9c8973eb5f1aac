// What the programs write beside `write!`: bytes as they are, a number, and numbers in a row.
#![tactic(auto)]

ghost use Rattle.std.specs.Prelude.{OnOk, IfSome};
ghost use Rattle.std.specs.Io.KnownBytes.{Appends};
ghost use Rattle.shown.specs.Row.{row};

use std::fmt::Display;
use std::io;
use std::io::Write;

// By itself, for its promise: `numbers` is proved by it.
pub fn text<W: Write>(out: &mut W, s: &[u8]) -> io::Result<()>
    ensures { OnOk result (Appends (W.contents out.old) (W.contents out.new) s.now) }
{
    out.write_all(s)
}

// A number of any size, with its sign if it is below 0.
pub fn number<W: Write, T: Display + Drop>(out: &mut W, x: T) -> io::Result<()>
    ensures { OnOk result (IfSome (T.output x) (Appends (W.contents out.old) (W.contents out.new))) }
{
    write!(out, "{x}")
}

// A blank before each.
pub fn numbers<W: Write, T: Display + Copy>(out: &mut W, xs: &[T]) -> io::Result<()>
    ensures { OnOk result (IfSome (row T.output xs.now) (Appends (W.contents out.old) (W.contents out.new))) }
{
    for x in xs {
        text(out, b" ")?;
        number(out, *x)?;
    }
    Ok(())
}
