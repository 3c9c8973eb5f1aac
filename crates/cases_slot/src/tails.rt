// The 192 tails and those just out of range, with no syllable: of all counts of bytes up to 15 the length call takes the right one alone. A line for
// each a, b, c, with d from 0 to 8.
use std::io;
use std::io::Write;

fn taken<W: Write>(out: &mut W, rest: &[u64; 6]) -> io::Result<()> {
    match slot::length(&[0; 4096], rest) {
        Ok(length) => write!(out, " {length}"),
        Err(_) => Ok(()),
    }
}

fn phases<W: Write>(out: &mut W, a: u64, b: u64, c: u64) -> io::Result<()> {
    for d in 0..9 {
        write!(out, " |")?;
        for bytes in 0..16 {
            taken(out, &[0, bytes, a, b, c, d])?;
        }
    }
    Ok(())
}

pub(crate) fn tails<W: Write>(out: &mut W) -> io::Result<()> {
    for a in 0..4 {
        for b in 0..3 {
            for c in 0..5 {
                write!(out, "tail {a} {b} {c}")?;
                phases(out, a, b, c)?;
                writeln!(out)?;
            }
        }
    }
    Ok(())
}
