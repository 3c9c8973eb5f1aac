// Readings: the syllables and the Clifford that the letters read so far make (NormalForm of the Rust).
#![tactic(auto)]

ghost use Rattle.std.specs.Prelude.{◌≡◌, ◌+◌, ◌≤◌, ◌<◌, length};
ghost use Rattle.exact.specs.Meaning.Outcome.{Decides};
ghost use Rattle.reading.specs.Readings.{read};
ghost use Rattle.reading.specs.Steps.{letter_at, Fits, tail_of};
ghost use Rattle.reading.specs.Syllables.{syllable_of, syllable_number};
ghost use Rattle.reading.specs.Held.{Blank, Readable, Steps, Pushed, Popped, Room, Placed, cancelled, by_kind, pair};
ghost use Rattle.reading.specs.Texts.{whole_of, Few, ReadableText, StepsText, AddsLetter};
ghost use Rattle.reading.specs.Letters.{Reads, NumberAt};

use crate::steps::Tail;
use crate::table::{IDENTITY, Table};
use exact::Refusal;

pub mod steps;
pub mod table;

// The codes of no syllable and of T; a syllable's code is the number of its letters. Numbers and no enum: C lends them.
pub const EMPTY: u8 = 0;

const ONLY_T: u8 = 1;

#[derive(Clone, Copy, PartialEq, Eq)]
pub enum Syllable {
    I,
    T,
    HT,
    SHT,
}

// As many syllables as stand in the array, their letters, and the Clifford behind them. The array stands beside it: slots lend one, and a
// reading is a value that is kept in registers.
#[derive(Clone, Copy)]
pub struct Reading {
    pub count: usize,
    pub letters: usize,
    pub tail: Tail,
}

// The running record: the same, and the bytes of the text of it all, in which an empty tail is one I. It is what one step hands to the next.
#[derive(Clone, Copy)]
pub struct Text {
    pub reading: Reading,
    pub bytes: usize,
}

// No syllable where there is none of this code.
impl From<u8> for Syllable {
    ghost from_gives = { λ code s. s ≡ syllable_of code };

    fn from(code: u8) -> Syllable {
        match code {
            1 => Syllable::T,
            2 => Syllable::HT,
            3 => Syllable::SHT,
            _ => Syllable::I,
        }
    }
}

// Its letters.
impl From<Syllable> for usize {
    ghost from_gives = { λ s n. n ≡ syllable_number s };

    fn from(s: Syllable) -> usize {
        s as usize
    }
}

impl Reading {
    pub fn whole(self, table: Table) -> Text
        requires { Few self }
        ensures { result ≡ whole_of self }
    {
        Text {
            reading: self,
            bytes: self.letters + self.tail.size(table),
        }
    }
}

// One syllable more or, with EMPTY, none; the place behind the last is written either way.
fn push(items: &mut [u8], r: Reading, code: u8, more: usize, tail: Tail) -> Reading
    requires { (r.count < length items.old) × (r.count < 4096) × (r.letters ≤ 12288) × (more ≤ 1) }
    ensures { Pushed items.old r code more tail items.new result }
{
    let count = r.count;
    items[count] = code;
    Reading {
        count: count + more,
        letters: r.letters + code as usize,
        tail,
    }
}

// The place is empty again.
fn pop(items: &mut [u8], r: Reading, code: u8, tail: Tail) -> Reading
    requires { (0 < r.count) × (r.count ≤ length items.old) × (code ≤ r.letters) }
    ensures { Popped items.old r code tail items.new result }
{
    let count = r.count - 1;
    items[count] = EMPTY;
    Reading {
        count: count,
        letters: r.letters - code as usize,
        tail,
    }
}

// A T with nothing between it and the last syllable, and a Clifford behind it.
fn cancel(table: Table, items: &mut [u8], r: Reading, rest: Tail) -> Reading
    requires readable { Readable items.old r }
    requires places { (0 < length items.old) × (r.count ≤ length items.old) × (r.count ≤ 4096) }
    requires rest_fits { Fits rest }
    ensures { Steps (cancelled (tail_of rest)) items.old r items.new result }
{
    let count = r.count;
    if count == 0 {
        return push(items, r, ONLY_T, 1, rest);
    }
    let last = items[count - 1];
    let tail = rest.behind(table, last);
    pop(items, r, last, tail)
}

// A step's change, where what is pushed has its place: EMPTY is pushed too, which needs no branch.
fn put(table: Table, items: &mut [u8], r: Reading, kind: u8, rest: Tail) -> Reading
    requires readable { Readable items.old r }
    requires room { Room items.old r kind }
    requires rest_fits { Fits rest }
    ensures { Steps (by_kind kind (tail_of rest)) items.old r items.new result }
{
    if kind == 1 {
        return cancel(table, items, r, rest);
    }
    push(items, r, kind, (kind / 2) as usize, rest)
}

// Two letters more, by their numbers.
fn append_gates(table: Table, items: &mut [u8], r: Text, first: u8, second: u8) -> Text
    requires readable { ReadableText items.old r }
    requires place { (r.reading.count < length items.old) × (r.reading.count < 4096) }
    requires letters { (first < 6) × (second < 6) }
    ensures { StepsText (pair (letter_at first) (letter_at second)) items.old r items.new result }
{
    let reading = r.reading;
    let tail = reading.tail;
    let step = tail.step(table, first, second);
    let kind = step.kind;
    let rest = step.tail;
    let next = put(table, items, reading, kind, rest);
    next.whole(table)
}

// A step's change, where a syllable that is added has its place, and nothing else needs one.
fn change(table: Table, items: &mut [u8], r: Reading, kind: u8, rest: Tail) -> Reading
    requires readable { Readable items.old r }
    requires placed { Placed items.old r kind }
    requires rest_fits { Fits rest }
    ensures { Steps (by_kind kind (tail_of rest)) items.old r items.new result }
{
    if kind == 0 {
        return Reading {
            count: r.count,
            letters: r.letters,
            tail: rest,
        };
    }
    put(table, items, r, kind, rest)
}

// Whether a change by this kind needs a place, and there is none.
fn lacks_place(kind: u8, count: usize, places: usize) -> bool
    ensures { Decides ((1 < kind) × (count ≡ places)) result }
{
    kind > 1 && count == places
}

// One letter more, by its number, in an array that may be full.
pub fn append_gate(table: Table, items: &mut [u8], r: Text, letter: u8) -> Result<Text, Refusal>
    requires readable { ReadableText items.old r }
    requires places { length items.old ≡ 4096 }
    requires letter_few { letter < 6 }
    ensures { AddsLetter (letter_at letter) items.old r items.new result }
{
    let reading = r.reading;
    let tail = reading.tail;
    let step = tail.step(table, letter, IDENTITY);
    let kind = step.kind;
    if lacks_place(kind, reading.count, items.len()) {
        return Err(Refusal::Full);
    }
    let rest = step.tail;
    let next = change(table, items, reading, kind, rest);
    Ok(next.whole(table))
}

// The number of the letter at a place.
fn number_at(table: Table, word: &[u8], at: usize) -> Result<u8, Refusal>
    requires { at < length word.now }
    ensures { NumberAt word.now at result }
{
    table.number(word[at]).ok_or(Refusal::Letter(at))
}

// The text of a word, in an array that is empty, with a place for each letter: two letters at a time, and a last one beside I.
pub fn read_word(table: Table, items: &mut [u8], word: &[u8]) -> Result<Text, Refusal>
    requires blank { Blank items.old }
    requires places { (length word.now ≤ 4096) × (length word.now ≤ length items.old) }
    ensures { Reads word.now items.new result }
{
    let mut r = Text {
        reading: Reading {
            count: 0,
            letters: 0,
            tail: Tail { code: 0, phase: 0 },
        },
        bytes: 1,
    };
    let pairs = word.len() / 2;
    for i in 0..pairs {
        let first = number_at(table, word, 2 * i)?;
        let second = number_at(table, word, 2 * i + 1)?;
        r = append_gates(table, items, r, first, second);
    }
    if 2 * pairs < word.len() {
        let last = number_at(table, word, 2 * pairs)?;
        r = append_gates(table, items, r, last, IDENTITY);
    }
    Ok(r)
}
