// A text walked: whether it is a circuit or where it stops being one, and how many letters it is read as.
// A place and no slice from there on: a refusal names the place in the whole text.
#![tactic(auto)]

ghost use Rattle.std.specs.Prelude.{◌≡◌, ◌&&◌, ◌+◌, ◌≤◌, ◌<◌, eqb, length, get_or, drop};
ghost use Rattle.circuit.specs.Meaning.{edition_of, row};
ghost use Rattle.circuit_reader.specs.Reading.{Along, MatchIs, LineIs, TailIs, GateIs, DaggerIs, SameIs, Heading, Headed};
ghost use Rattle.circuit_reader.specs.Reading.{WalkIs};

use circuit::Edition;
use exact::Refusal;

// A right text: where its statements start, and how many letters they are read as.
#[derive(Clone, Copy)]
pub struct Circuit {
    pub start: usize,
    pub letters: usize,
}

// A statement: the place behind its line, and how many letters it is read as.
#[derive(Clone, Copy)]
struct Line {
    next: usize,
    letters: usize,
}

// How far a text goes along with a word.
fn along(text: &[u8], word: &[u8]) -> usize
    ensures { Along text.now word.now result }
{
    for (k, b) in word.iter().enumerate() {
        if text.get(k) != Some(b) {
            return k;
        }
    }
    word.len()
}

// Whether a byte stands at a place.
fn stands(text: &[u8], at: usize, b: u8) -> bool
    requires { 0 < b }
    ensures { result ≡ eqb (get_or text.now at 0) b }
{
    text.get(at) == Some(&b)
}

// The line of the one statement that can stand at a place, or where the text leaves it.
fn matched(text: &[u8], at: usize, line: &[u8], letters: usize) -> Result<Line, Refusal>
    requires { at ≤ length text.now }
    ensures { MatchIs text.now at line.now letters result }
{
    let next = at + along(&text[at..], line);
    if next < at + line.len() {
        return Err(Refusal::Statement(next));
    }
    Ok(Line { next, letters })
}

// The statement at a place, or where the text stops: its first two bytes tell which it can only be.
fn other_at(text: &[u8], at: usize, edition: Edition) -> Result<Line, Refusal>
    requires { at < length text.now }
    ensures { LineIs (row (edition_of edition)).has_phase text.now at result }
{
    match text[at] {
        b'h' => matched(text, at, b"h q[0];\n", 1),
        b'x' => matched(text, at, b"x q[0];\n", 1),
        b's' if stands(text, at + 1, b'd') => matched(text, at, b"sdg q[0];\n", 3),
        b's' => matched(text, at, b"s q[0];\n", 1),
        b't' if stands(text, at + 1, b'd') => matched(text, at, b"tdg q[0];\n", 4),
        b't' => matched(text, at, b"t q[0];\n", 1),
        b'g' if edition.has_phase() => matched(text, at, b"gphase(pi/4);\n", 1),
        _ => Err(Refusal::Statement(at)),
    }
}

// Whether a gate has the name. An arm for each: `matches!` branches on which of them it is, and no branch can foresee that.
fn is_gate(b: u8) -> bool
    ensures { GateIs b result }
{
    match b {
        b'h' => true,
        b's' => true,
        b't' => true,
        b'x' => true,
        _ => false,
    }
}

// Whether a text begins with ` q[0];` and LF.
fn is_tail(text: &[u8]) -> bool
    ensures { TailIs text.now result }
{
    matches!(text, [b' ', b'q', b'[', b'0', b']', b';', b'\n', ..])
}

// How many letters sdg or tdg is read as, if a text begins with one.
fn dagger(text: &[u8]) -> Option<usize>
    ensures { DaggerIs text.now result }
{
    match text {
        [b, b'd', b'g', tail @ ..] if is_tail(tail) => match b {
            b's' => Some(3),
            b't' => Some(4),
            _ => None,
        },
        _ => None,
    }
}

// The statement at a place; gates are told at once.
fn line_at(text: &[u8], at: usize, edition: Edition) -> Result<Line, Refusal>
    requires { at < length text.now }
    ensures { LineIs (row (edition_of edition)).has_phase text.now at result }
{
    if is_gate(text[at]) && is_tail(&text[at + 1..]) {
        return Ok(Line {
            next: at + 8,
            letters: 1,
        });
    }
    if let Some(letters) = dagger(&text[at..]) {
        return Ok(Line {
            next: at + 10,
            letters,
        });
    }
    other_at(text, at, edition)
}

fn lines_from(text: &[u8], start: usize, edition: Edition) -> Result<Circuit, Refusal>
    requires { Headed text.now start (edition_of edition) }
    ensures { WalkIs text.now result }
{
    let mut at = start;
    let mut letters: usize = 0;
    // no `for`: a statement's line has its own length
    while at < text.len() {
        let line = line_at(text, at, edition)?;
        at = line.next;
        letters += line.letters;
    }
    Ok(Circuit { start, letters })
}

// Whether a text begins with a word: every byte is compared, so that many go at once.
fn begins(text: &[u8], word: &[u8]) -> bool
    requires { length word.now ≤ length text.now }
    ensures { SameIs text.now word.now result }
{
    let mut same = true;
    for (k, b) in word.iter().enumerate() {
        same &= text[k] == *b;
    }
    same
}

// The text held to the one header that it can begin with.
fn walk_by(text: &[u8], edition: Edition) -> Result<Circuit, Refusal>
    requires { Heading text.now (edition_of edition) }
    ensures { WalkIs text.now result }
{
    let head = edition.header();
    let n = head.len();
    if n <= text.len() && begins(text, head) {
        return lines_from(text, n, edition);
    }
    // a comparison of every byte does not tell the place
    let k = along(text, head);
    if k < n {
        return Err(Refusal::Statement(k));
    }
    lines_from(text, n, edition)
}

// The header's tenth byte tells the edition that it can only be.
pub fn walk(text: &[u8]) -> Result<Circuit, Refusal>
    ensures { WalkIs text.now result }
{
    if stands(text, 9, b'3') {
        walk_by(text, Edition::Three)
    } else {
        walk_by(text, Edition::Two)
    }
}
