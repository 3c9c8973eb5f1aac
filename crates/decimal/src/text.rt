// Text written into a slice from a place on; each writer returns the place behind what it wrote. A place and no slice: `Written` (crate lent) tells
// what stands before it too.
ghost use Rattle.std.specs.Prelude.{[], ◌∷◌, ◌++◌, ◌+◌, ◌≤◌, length};
ghost use Rattle.exact.specs.Meaning.Record.{digits};
ghost use Rattle.lent.specs.Written.{Written};

// A number's digits: those of the tenth, and the last. By hand, as a formatter may fail for want of room, and here there is room.
fn number(out: &mut [u8], at: usize, v: u64) -> usize
    requires { at + length (digits v) ≤ length out.old }
    ensures { Written out.old at (digits v) out.new result }
{
    if v < 10 {
        out[at] = b'0' + v as u8;
        return at + 1;
    }
    let last = number(out, at, v / 10);
    out[last] = b'0' + (v % 10) as u8;
    last + 1
}

// A line: its name with `=`, a number, LF.
pub fn number_line(out: &mut [u8], at: usize, name: &[u8], v: u64) -> usize
    requires { at + length (name.now ++ (digits v ++ (10 ∷ []))) ≤ length out.old }
    ensures { Written out.old at (name.now ++ (digits v ++ (10 ∷ []))) out.new result }
{
    let value = lent::put(out, at, name);
    let end = number(out, value, v);
    lent::put(out, end, b"\n")
}

// A line: its name with `=`, bytes, LF.
pub fn bytes_line(out: &mut [u8], at: usize, name: &[u8], value: &[u8]) -> usize
    requires { at + length (name.now ++ (value.now ++ (10 ∷ []))) ≤ length out.old }
    ensures { Written out.old at (name.now ++ (value.now ++ (10 ∷ []))) out.new result }
{
    let start = lent::put(out, at, name);
    let end = lent::put(out, start, value);
    lent::put(out, end, b"\n")
}
