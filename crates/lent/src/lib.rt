// Bytes put into lent memory from a place on.
#![tactic(auto)]

ghost use Rattle.std.specs.Prelude.{◌+◌, ◌≤◌, length};
ghost use Rattle.lent.specs.Written.{Written};

// Returns the place behind what was put. A place and no slice: `Written` tells what stands before it too.
// Not by `copy_from_slice`, which is a memcpy: the archive for C is to need memset alone.
pub fn put(out: &mut [u8], at: usize, src: &[u8]) -> usize
    requires { at + length src.now ≤ length out.old }
    ensures { Written out.old at src.now out.new result }
{
    for (i, b) in src.iter().enumerate() {
        out[at + i] = *b;
    }
    at + src.len()
}
