// Cases of jobs 1 and 2 from docs/SCOPE.md, Either side, with more at each limit: a line each, compared with stdout.
#![tactic(auto)]

use ring::{Triple, ZOmega};
use std::io::Write;
use std::{array, io};
use unitary::DOmegaUnitary;

// Shown for the matrix of a refusal.
const NOUGHT: DOmegaUnitary = DOmegaUnitary {
    z: ZOmega::ZERO,
    w: ZOmega::ZERO,
    n: 0,
    k: 0,
};

fn matrix<W: Write>(out: &mut W, t: DOmegaUnitary) -> io::Result<()> {
    let DOmegaUnitary { z, w, n, k } = t;
    writeln!(out, " k={k} n={n} z={z} w={w}")
}

fn reduced<W: Write>(out: &mut W, label: &str, t: Triple) -> io::Result<()> {
    let (refusal, answer) = match unitary::reduce(t) {
        Ok(answer) => (exact::ACCEPTED, answer),
        Err(refusal) => (refusal.number(), NOUGHT),
    };
    write!(out, "{label}: refusal={refusal}")?;
    matrix(out, answer)
}

fn of_word<W: Write>(out: &mut W, label: &str, word: &[u8]) -> io::Result<()> {
    let (refusal, place, answer) = match unitary::from_gates(word) {
        Ok(answer) => (exact::ACCEPTED, 0, answer),
        Err(refusal) => (refusal.number(), refusal.place(), NOUGHT),
    };
    write!(out, "{label}: refusal={refusal} place={place}")?;
    matrix(out, answer)
}

// The four parts one by one, so that a case is a line.
fn given(k: i64, n: u8, z: ZOmega, w: ZOmega) -> Triple {
    Triple { k, n, z, w }
}

fn triples<W: Write>(out: &mut W) -> io::Result<()> {
    let zero = ZOmega::ZERO;
    let one = ZOmega::ONE;
    let root = ZOmega::new(-1, 0, 1, 0);
    let top = ZOmega::new(0, 0, 0, 1073741824);
    let over = ZOmega::new(0, 0, 0, 1073741825);
    let low = ZOmega::new(-1073741824, 0, 0, 0);
    let under = ZOmega::new(-1073741825, 0, 0, 0);
    let crossed = ZOmega::new(0, 0, 1, 1);
    let wide = ZOmega::new(9223372036854775807, 0, 0, 0);
    reduced(out, "identity", given(0, 0, one, zero))?;
    reduced(out, "k=60", given(60, 0, top, zero))?;
    reduced(out, "k=60, n=255", given(60, 255, low, zero))?;
    reduced(out, "k=61", given(61, 0, top, zero))?;
    reduced(out, "k=-1", given(-1, 0, one, zero))?;
    reduced(out, "k least", given(-9223372036854775807, 0, wide, wide))?;
    reduced(out, "2^30+1", given(60, 0, over, zero))?;
    reduced(out, "-2^30-1", given(60, 0, zero, under))?;
    reduced(out, "widest", given(60, 0, zero, wide))?;
    reduced(out, "only the squares fit", given(1, 0, crossed, zero))?;
    reduced(out, "z=w=1, k=0", given(0, 0, one, one))?;
    reduced(out, "z=w=1, k=1", given(1, 4, one, one))?;
    reduced(out, "identity at k=1", given(1, 0, root, zero))?;
    reduced(out, "z=0", given(0, 9, zero, one))
}

fn words<W: Write>(out: &mut W) -> io::Result<()> {
    of_word(out, "empty", b"")?;
    of_word(out, "I", b"I")?;
    of_word(out, "IHSXWT", b"IHSXWT")?;
    of_word(out, "TH", b"TH")?;
    of_word(out, "HT", b"HT")?;
    of_word(out, "bad byte first", b"hHT")?;
    of_word(out, "bad byte last", b"HTZ")?;
    of_word(out, "bad bytes", b"HTxyz")?;
    let mut long = [b'T'; 4097];
    of_word(out, "4096 letters", &long[..4096])?;
    of_word(out, "4097 letters", &long)?;
    long[4096] = b'?';
    of_word(out, "4097 letters, a bad byte", &long)
}

// H and T by turns.
fn by_turns(i: usize) -> u8 {
    if i % 2 == 0 { b'H' } else { b'T' }
}

fn powers<W: Write>(out: &mut W, ht: &[u8; 244]) -> io::Result<()> {
    of_word(out, "HT 60 times", &ht[..120])?;
    of_word(out, "HT 119 times", &ht[..238])?;
    of_word(out, "HT 120 times", &ht[..240])?;
    of_word(out, "HT 122 times", ht)
}

fn main(rt: HostRuntime) -> io::Result<()> {
    let mut out = rt.stdout();
    triples(&mut out)?;
    words(&mut out)?;
    powers(&mut out, &array::from_fn(by_turns))
}
