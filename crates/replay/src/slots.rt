// Slots: the codes and the numbers of a request, and the answer in text.
use crate::digits::{digit, shown};
use exact::Refusal;
use ring::Triple;
use shown::{numbers, text};
use std::io;
use std::io::Write;

// 255 for a byte that is no digit, 0 behind the last.
fn codes(digits: &[u8]) -> [u8; 4096] {
    let mut syllables = [0; 4096];
    for (syllable, b) in syllables.iter_mut().zip(digits) {
        *syllable = digit(*b).unwrap_or(255);
    }
    syllables
}

// A number below 0 stands for 2^64-1.
fn large(x: i64) -> u64 {
    u64::try_from(x).unwrap_or(u64::MAX)
}

fn rest_of(t: Triple) -> [u64; 6] {
    [t.k, t.w.a, t.z.a, t.z.b, t.z.c, t.z.d].map(large)
}

// As far as the last that is not 0. No `for`: what is left gets shorter at its end.
fn to_last(digits: &[u8]) -> &[u8] {
    let mut rest = digits;
    while let [front @ .., b'0'] = rest {
        rest = front;
    }
    rest
}

fn written<W: Write>(
    out: &mut W,
    answer: Result<u64, Refusal>,
    syllables: &[u8; 4096],
    rest: &[u64; 6],
) -> io::Result<()> {
    match answer {
        Ok(length) => write!(out, "0 {length}")?,
        Err(refusal) => write!(out, "{} 0", refusal.number())?,
    }
    numbers(out, rest)?;
    text(out, b" ")?;
    text(out, to_last(&syllables.map(shown)))
}

pub fn add<W: Write>(out: &mut W, t: Triple, digits: &[u8]) -> io::Result<()> {
    let mut syllables = codes(digits);
    let mut rest = rest_of(t);
    let answer = slot::add(t.n, &mut syllables, &mut rest);
    written(out, answer, &syllables, &rest)
}

pub fn length<W: Write>(out: &mut W, t: Triple, digits: &[u8]) -> io::Result<()> {
    let syllables = codes(digits);
    let rest = rest_of(t);
    let answer = slot::length(&syllables, &rest);
    written(out, answer, &syllables, &rest)
}

// The payload has a digit for each code, as many as the room says, and behind them a bench record.
pub fn answer<W: Write, F: FnOnce(&mut W, Triple, &[u8]) -> io::Result<()>>(
    out: &mut W,
    payload: &[u8],
    room: usize,
    job: F,
) -> io::Result<()>
    requires { F.IsAlwaysCallable job }
{
    let Some((digits, rest)) = payload.split_at_checked(room) else {
        return Ok(());
    };
    match record::read(rest) {
        Ok(t) => job(out, t, digits),
        Err(_) => text(out, b"no record"),
    }
}
