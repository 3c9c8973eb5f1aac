// Whether letters give a lent record, told from the record alone: its codes, the places behind them, the ranges of its numbers, its bytes.
ghost use Rattle.std.specs.Prelude.{◌≡◌, ◌≤◌, length};
ghost use Rattle.exact.specs.Meaning.Outcome.{Decides};
ghost use Rattle.reading.specs.Texts.{whole_of, Few};
ghost use Rattle.slot.specs.Meaning.{slot_of};
ghost use Rattle.slot.specs.Tests.{Ranges, Fronts, sum, Behind};
ghost use Rattle.slot.specs.Standing.{stack_in, Tells};

use reading::steps::Tail;
use reading::table::Table;
use reading::{Reading, Text};

// No more syllables than places, and the tail's numbers as a Clifford has them.
fn ranged(rest: &[u64; 6]) -> bool
    ensures { Decides (Ranges rest.now) result }
{
    let [count, _, a, b, c, d] = *rest;
    count <= 4096 && a < 3 && b < 2 && c < 4 && d < 8
}

// A T may be the first; every code is looked at, so that many go at once.
fn codes_right(codes: &[u8]) -> bool
    ensures { Decides (Fronts codes.now (length codes.now)) result }
{
    let [first, others @ ..] = codes else {
        return true;
    };
    let mut right = (*first > 0) & (*first < 4);
    for code in others {
        right &= *code / 2 == 1;
    }
    right
}

// The letters of right codes: few enough for sixteen bits, in which more go at once.
fn letters_of(codes: &[u8]) -> u16
    requires few { length codes.now ≤ 4096 }
    requires right { Fronts codes.now (length codes.now) }
    ensures { result ≡ sum codes.now }
{
    let mut letters = 0;
    for code in codes {
        letters += *code as u16;
    }
    letters
}

// Nothing stands behind the last syllable; every place is looked at, so that many go at once.
fn behind(places: &[u8]) -> bool
    ensures { Decides (Behind places.now 0 (length places.now)) result }
{
    let mut empty = true;
    for place in places {
        empty &= *place == 0;
    }
    empty
}

// The text of numbers in their ranges, its syllables having so many letters.
fn reading_in(table: Table, letters: usize, rest: &[u64; 6]) -> Text
    requires ranges { Ranges rest.now }
    requires few { Few (stack_in rest.now letters) }
    ensures { result ≡ whole_of (stack_in rest.now letters) }
{
    let [count, _, a, b, c, d] = *rest;
    let code = a * 8 + b * 4 + c;
    let reading = Reading {
        count: count as usize,
        letters,
        tail: Tail {
            code: code as usize,
            phase: d as usize,
        },
    };
    reading.whole(table)
}

// The codes and the bytes of a record whose numbers are in their ranges.
fn check_codes(table: Table, items: &[u8; 4096], rest: &[u64; 6]) -> Option<Text>
    requires { Ranges rest.now }
    ensures { Tells (slot_of items.now rest.now) result }
{
    let (codes, places) = items.split_at(rest[0] as usize);
    if codes_right(codes) & behind(places) {
        let r = reading_in(table, letters_of(codes) as usize, rest);
        if r.bytes as u64 == rest[1] {
            return Some(r);
        }
    }
    None
}

// What is read from a record that letters give, and from no other.
pub(crate) fn check(table: Table, items: &[u8; 4096], rest: &[u64; 6]) -> Option<Text>
    ensures { Tells (slot_of items.now rest.now) result }
{
    if ranged(rest) {
        check_codes(table, items, rest)
    } else {
        None
    }
}
