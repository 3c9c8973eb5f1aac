// The writer: a word is measured, and then its lines are put, the rightmost letter's first.
// A place and no slice: `Written` (crate lent) tells what stands before it too.
#![tactic(auto)]

ghost use Rattle.std.specs.Prelude.{◌≡◌, ◌∷◌, ◌+◌, ◌≤◌, ◌<◌, length};
ghost use Rattle.exact.specs.Meaning.Text.{ascii};
ghost use Rattle.exact.specs.Meaning.Word.{IsLetter};
ghost use Rattle.exact.specs.Cases.Letters.{letter_of, letters_of};
ghost use Rattle.lent.specs.Written.{Written as Puts};
ghost use Rattle.circuit.specs.Meaning.{statement_of, circuit, lines};
ghost use Rattle.circuit_writer.specs.Writing.{Spells, SizeIs, PhaseIs, MeasureIs, size_of};

use exact::Refusal;

// A word of letters: the bytes of its lines, and the place of the first W or the word's length.
#[derive(Clone, Copy)]
pub struct Measured {
    pub lines: usize,
    pub phase: usize,
}

// The bytes of a letter's line. A byte and no enum, as words are lent.
fn line_size(b: u8) -> Option<usize>
    ensures { SizeIs b result }
{
    match b {
        b'H' => Some(8),
        b'S' => Some(8),
        b'T' => Some(8),
        b'X' => Some(8),
        b'W' => Some(14),
        b'I' => Some(0),
        _ => None,
    }
}

// The place of the first W, or the word's length.
fn first_w(word: &[u8]) -> usize
    ensures { PhaseIs word.now result }
{
    word.iter().position(|b| *b == b'W').unwrap_or(word.len())
}

// At most 4096 letters, asked for and no type: the one caller has just compared the length.
pub fn measure(word: &[u8]) -> Result<Measured, Refusal>
    requires { length word.now ≤ 4096 }
    ensures { MeasureIs word.now result }
{
    let phase = first_w(word);
    let mut lines: usize = 0;
    for (i, b) in word.iter().enumerate() {
        lines += line_size(*b).ok_or(Refusal::Letter(i))?;
    }
    Ok(Measured { lines, phase })
}

// The line of a gate with a name of one letter.
fn put_gate(buf: &mut [u8], at: usize, name: u8) -> usize
    requires { at + 8 ≤ length buf.old }
    ensures { Puts buf.old at (name ∷ ascii " q[0];\n") buf.new result }
{
    buf[at] = name;
    lent::put(buf, at + 1, b" q[0];\n")
}

// The line of a letter; none for I.
fn put_line(buf: &mut [u8], at: usize, b: u8) -> usize
    requires fact_1 { IsLetter b }
    requires fact_2 { at + size_of (letter_of b) ≤ length buf.old }
    ensures { Puts buf.old at (lines (statement_of (letter_of b))) buf.new result }
{
    if b == b'I' {
        return at;
    }
    if b == b'W' {
        return lent::put(buf, at, b"gphase(pi/4);\n");
    }
    // a gate's name is its letter in lower case
    put_gate(buf, at, b + 32)
}

pub fn put_lines(buf: &mut [u8], start: usize, word: &[u8]) -> usize
    requires fact_1 { Spells word.now }
    requires fact_2 { start + length (lines (circuit (letters_of word.now))) ≤ length buf.old }
    ensures { Puts buf.old start (lines (circuit (letters_of word.now))) buf.new result }
{
    let mut at = start;
    for b in word.iter().rev() {
        at = put_line(buf, at, *b);
    }
    at
}
