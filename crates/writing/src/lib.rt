// The letters of a normal word, put into a lent buffer: those of its syllables, and those of its tail.
#![tactic(auto)]

ghost use Rattle.std.specs.Prelude.{◌≡◌, cond, [], ◌∷◌, ◌+◌, ◌≤◌, ◌<◌, eqb, length, replicate};
ghost use Rattle.exact.specs.Meaning.Word.{bytes};
ghost use Rattle.reading.specs.Steps.{Fits, tail_of};
ghost use Rattle.reading.specs.Syllables.{syllable_word};
ghost use Rattle.writing.specs.Spelt.{first_of, second_of};
ghost use Rattle.writing.specs.Put.{Put};
ghost use Rattle.writing.specs.Endings.{esses_of, aitches_of, end_word, end_size, Sized, letter_in, Ended};
ghost use Rattle.writing.specs.Runs.{past_of, run_letter};
ghost use Rattle.writing.specs.Codes.{codes_word};

use clifford::{Axis, Coset};
use reading::Syllable;
use reading::steps::Tail;
use reading::table::Table;

// How often each letter stands in a tail: S, H, I, X, S and W, in this order.
#[derive(Clone, Copy)]
pub struct Ending {
    pub first: usize,
    pub h: usize,
    pub i: usize,
    pub x: usize,
    pub s: usize,
    pub w: usize,
}

fn esses(axis: Axis) -> usize
    ensures { result ≡ esses_of axis }
{
    match axis {
        Axis::I | Axis::H => 0,
        Axis::SH => 1,
    }
}

fn aitches(axis: Axis) -> usize
    ensures { result ≡ aitches_of axis }
{
    match axis {
        Axis::I => 0,
        Axis::H | Axis::SH => 1,
    }
}

// A tail with no letter to write is one I. A function of its own, as `kept` is: it promises the choice that the definition spells.
fn one_if_none(n: usize) -> usize
    ensures { result ≡ cond (eqb n 0) 1 0 }
{
    if n == 0 { 1 } else { 0 }
}

// The W letters of a tail, kept or not: the one place where jobs 3 and 5 write other letters.
fn kept(phase: bool, w: usize) -> usize
    ensures { result ≡ cond phase w 0 }
{
    if phase { w } else { 0 }
}

pub fn ending_of(table: Table, t: Tail, phase: bool) -> Ending
    requires { Fits t }
    ensures { Ended phase (tail_of t) result }
{
    let Coset { axis, rest } = t.split(table);
    let first = esses(axis);
    let h = aitches(axis);
    let x = usize::from(rest.b);
    let s = usize::from(rest.c);
    let w = usize::from(rest.d);
    let last = kept(phase, w);
    let i = one_if_none(first + h + x + s + last);
    Ending {
        first,
        h,
        i,
        x,
        s,
        w: last,
    }
}

// Whether a run that ends at a place lies before this one: a number, so that a letter is found without a branch.
fn past(j: usize, end: usize) -> usize
    ensures { (result ≡ past_of j end) × (result ≤ 1) }
{
    usize::from(j >= end)
}

// The letter of each run: S, H, I, X, S and W.
fn run_letter(run: usize) -> u8
    ensures { result ≡ run_letter run }
{
    match run {
        0 => b'S',
        1 => b'H',
        2 => b'I',
        3 => b'X',
        4 => b'S',
        _ => b'W',
    }
}

impl Ending {
    pub fn size(self) -> usize
        requires { Sized (end_size self) }
        ensures { result ≡ end_size self }
    {
        self.first + self.h + self.i + self.x + self.s + self.w
    }

    // The letter at a place of the tail, by how many of its runs end there or before: no branch on the letter.
    fn letter(self, j: usize) -> u8
        requires { Sized (end_size self) }
        ensures { result ≡ letter_in self j }
    {
        let first = self.first;
        let h = first + self.h;
        let i = h + self.i;
        let x = i + self.x;
        let s = x + self.s;
        run_letter(past(j, first) + past(j, h) + past(j, i) + past(j, x) + past(j, s))
    }
}

// What puts letters takes the buffer and a place in it, and hands on the next place: cut for each call, a slice would need a place too.
pub fn put_letter(buf: &mut [u8], at: usize, letter: u8) -> usize
    requires { at < length buf.old }
    ensures { Put buf.old at (letter ∷ []) buf.new result }
{
    buf[at] = letter;
    at + 1
}

pub fn put_times(buf: &mut [u8], at: usize, letter: u8, n: usize) -> usize
    requires { at + n ≤ length buf.old }
    ensures { Put buf.old at (replicate n letter) buf.new result }
{
    buf[at..at + n].fill(letter);
    at + n
}

// Its first letter, by their number: H is 12 below T, and S is 11 above H.
fn first_letter(n: usize) -> u8
    ensures { result ≡ first_of n }
{
    let h = past(n, 2) as u8;
    let s = past(n, 3) as u8;
    b'T' - 12 * h + 11 * s
}

// Its second letter, or the only one.
fn second_letter(n: usize) -> u8
    ensures { result ≡ second_of n }
{
    let h = past(n, 3) as u8;
    b'T' - 12 * h
}

// Its first letter, its second and its last, of which some are the same: no branch on which syllable it is, but for none.
fn put_syllable(buf: &mut [u8], at: usize, s: Syllable) -> usize
    requires { at + length (syllable_word s) ≤ length buf.old }
    ensures { Put buf.old at (bytes (syllable_word s)) buf.new result }
{
    let n = usize::from(s);
    if n == 0 {
        return at;
    }
    buf[at] = first_letter(n);
    buf[at + n / 2] = second_letter(n);
    buf[at + (n - 1)] = b'T';
    at + n
}

// The syllables of these codes, from the buffer's beginning on.
pub fn put_syllables(buf: &mut [u8], codes: &[u8]) -> usize
    requires { length (codes_word codes.now) ≤ length buf.old }
    ensures { Put buf.old 0 (bytes (codes_word codes.now)) buf.new result }
{
    let mut at = 0;
    for code in codes {
        at = put_syllable(buf, at, Syllable::from(*code));
    }
    at
}

pub fn put_ending(buf: &mut [u8], at: usize, e: Ending) -> usize
    requires { at + end_size e ≤ length buf.old }
    ensures { Put buf.old at (bytes (end_word e)) buf.new result }
{
    let n = e.size();
    for j in 0..n {
        buf[at + j] = e.letter(j);
    }
    at + n
}
