// A line of a case: letters are added one after another to a copy of a record. The last letter's refusal and length, and how many of the codes and of
// the numbers have changed; refusal and length of the length call; the six numbers; the first five codes and the last two.
use exact::Refusal;
use shown::{numbers, text};
use std::io;
use std::io::Write;

// The refusal or 0, and the length or 0.
fn answer<W: Write>(out: &mut W, a: Result<u64, Refusal>) -> io::Result<()> {
    match a {
        Ok(length) => write!(out, " refusal=0 length={length}"),
        Err(e) => write!(out, " refusal={} length=0", e.number()),
    }
}

fn codes<W: Write>(out: &mut W, syllables: &[u8; 4096]) -> io::Result<()> {
    text(out, b", codes")?;
    numbers(out, &syllables[..5])?;
    text(out, b" ..")?;
    numbers(out, &syllables[4094..])
}

fn changed<T: PartialEq>(before: &[T], after: &[T]) -> usize {
    before.iter().zip(after).filter(|(x, y)| x != y).count()
}

// The last letter's answer, or, where there is no letter, the length call's.
fn added(word: &[u8], syllables: &mut [u8; 4096], rest: &mut [u64; 6]) -> Result<u64, Refusal> {
    let mut a = slot::length(syllables, rest);
    for letter in word {
        a = slot::add(*letter, syllables, rest);
    }
    a
}

pub(crate) fn case<W: Write>(
    out: &mut W,
    label: &[u8],
    word: &[u8],
    syllables: &[u8; 4096],
    rest: &[u64; 6],
) -> io::Result<()> {
    let mut codes_after = *syllables;
    let mut rest_after = *rest;
    text(out, label)?;
    text(out, b":")?;
    answer(out, added(word, &mut codes_after, &mut rest_after))?;
    let codes_changed = changed(syllables, &codes_after);
    let numbers_changed = changed(rest, &rest_after);
    write!(out, " changed={codes_changed}+{numbers_changed},")?;
    answer(out, slot::length(&codes_after, &rest_after))?;
    text(out, b", rest")?;
    numbers(out, &rest_after)?;
    codes(out, &codes_after)?;
    text(out, b"\n")
}
