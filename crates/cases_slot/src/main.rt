// Cases of slots, on either side of each limit: letters added to the empty record, bytes that are no letters, records damaged in each field, and full
// ones, a line each (line.rt); and every tail (tails.rt). Compared with stdout.
#![tactic(auto)]

use exact::Refusal;
use line::case;
use shown::text;
use std::io;
use std::io::Write;

mod line;
mod tails;

// From the empty record.
fn word<W: Write>(out: &mut W, letters: &[u8]) -> io::Result<()> {
    case(out, letters, letters, &[0; 4096], &[0, 1, 0, 0, 0, 0])
}

fn document<W: Write>(out: &mut W) -> io::Result<()> {
    word(out, b"")?;
    word(out, b"T")?;
    word(out, b"TT")?;
    word(out, b"TTTT")?;
    word(out, b"HH")?;
    word(out, b"HTT")?;
    word(out, b"SHTT")?;
    word(out, b"HSH")?;
    word(out, b"XT")?;
    word(out, b"WT")?;
    word(out, b"HTHT")
}

fn identities<W: Write>(out: &mut W) -> io::Result<()> {
    word(out, b"I")?;
    word(out, b"TI")?;
    word(out, b"ITI")?;
    word(out, b"HIH")?;
    word(out, b"SHTIT")?;
    word(out, b"HTIHT")?;
    word(out, b"IXTHS")?;
    word(out, b"XTHSI")
}

// The last word is HTHT and then its inverse.
fn removals<W: Write>(out: &mut W) -> io::Result<()> {
    word(out, b"HTHTT")?;
    word(out, b"SHTSHTT")?;
    word(out, b"THTSHTSHT")?;
    word(out, b"THTTHTT")?;
    word(out, b"TTTTTTTT")?;
    word(out, b"WWWWWWWW")?;
    word(out, b"SHXSSSWWWWWWW")?;
    word(out, b"HTHTTTTTTTTHTTTTTTTH")
}

// T, HT, SHT. The small record is these and the tail H: seven bytes.
fn small() -> [u8; 4096] {
    let mut syllables = [0; 4096];
    syllables[0] = 1;
    syllables[1] = 2;
    syllables[2] = 3;
    syllables
}

fn small_case<W: Write>(out: &mut W, label: &[u8], letter: u8) -> io::Result<()> {
    case(out, label, &[letter], &small(), &[3, 7, 1, 0, 1, 5])
}

fn small_letters<W: Write>(out: &mut W) -> io::Result<()> {
    small_case(out, b"I", b'I')?;
    small_case(out, b"H", b'H')?;
    small_case(out, b"S", b'S')?;
    small_case(out, b"X", b'X')?;
    small_case(out, b"W", b'W')?;
    small_case(out, b"T", b'T')
}

fn no_letters<W: Write>(out: &mut W) -> io::Result<()> {
    small_case(out, b"0", 0)?;
    small_case(out, b"64", 64)?;
    small_case(out, b"71", 71)?;
    small_case(out, b"74", 74)?;
    small_case(out, b"82", 82)?;
    small_case(out, b"85", 85)?;
    small_case(out, b"86", 86)?;
    small_case(out, b"89", 89)?;
    small_case(out, b"h", b'h')?;
    small_case(out, b"i", b'i')?;
    small_case(out, b"t", b't')?;
    small_case(out, b"255", 255)
}

// A byte that is taken from the empty record, or refused by another number than 2.
fn alone<W: Write>(out: &mut W, letter: u8) -> io::Result<()> {
    match slot::add(letter, &mut [0; 4096], &mut [0, 1, 0, 0, 0, 0]) {
        Err(Refusal::Letter(_)) => Ok(()),
        _ => write!(out, " {letter}"),
    }
}

fn alphabet<W: Write>(out: &mut W) -> io::Result<()> {
    text(out, b"not refused 2:")?;
    for letter in 0..=255 {
        alone(out, letter)?;
    }
    writeln!(out)
}

// A T, which would be one syllable more, to the small record with another code, its bytes as the codes' sum has them or as they were.
fn coded<W: Write>(out: &mut W, at: usize, code: u8, bytes: u64) -> io::Result<()> {
    let mut syllables = small();
    if let Some(place) = syllables.get_mut(at) {
        *place = code;
        case(out, b"code", b"T", &syllables, &[3, bytes, 1, 0, 1, 5])?;
    }
    Ok(())
}

// No syllable's code, a T that is not first, holes, and another syllable, which is no fault if its bytes are told.
fn wrong_codes<W: Write>(out: &mut W) -> io::Result<()> {
    coded(out, 0, 4, 10)?;
    coded(out, 1, 4, 9)?;
    coded(out, 1, 4, 7)?;
    coded(out, 0, 255, 261)?;
    coded(out, 1, 255, 260)?;
    coded(out, 2, 255, 259)?;
    coded(out, 1, 1, 6)?;
    coded(out, 2, 1, 5)?;
    coded(out, 0, 0, 6)?;
    coded(out, 1, 0, 5)?;
    coded(out, 1, 0, 7)?;
    coded(out, 2, 0, 4)?;
    coded(out, 1, 3, 7)?;
    coded(out, 0, 2, 7)?;
    coded(out, 0, 2, 8)
}

fn codes_behind<W: Write>(out: &mut W) -> io::Result<()> {
    coded(out, 3, 2, 7)?;
    coded(out, 3, 2, 9)?;
    coded(out, 3, 1, 7)?;
    coded(out, 4, 255, 7)?;
    coded(out, 4094, 3, 7)?;
    coded(out, 4095, 1, 7)
}

// The same with another number.
fn numbered<W: Write>(out: &mut W, at: usize, value: u64) -> io::Result<()> {
    let mut rest = [3, 7, 1, 0, 1, 5];
    if let Some(place) = rest.get_mut(at) {
        *place = value;
        case(out, b"number", b"T", &small(), &rest)?;
    }
    Ok(())
}

// One less and more, and what would be right if 2^8 or 2^32 were cut off it.
fn wrong_counts<W: Write>(out: &mut W) -> io::Result<()> {
    numbered(out, 0, 0)?;
    numbered(out, 0, 2)?;
    numbered(out, 0, 4)?;
    numbered(out, 0, 259)?;
    numbered(out, 0, 4096)?;
    numbered(out, 0, 4097)?;
    numbered(out, 0, 4294967296)?;
    numbered(out, 0, 4294967299)?;
    numbered(out, 0, u64::MAX)
}

fn wrong_bytes<W: Write>(out: &mut W) -> io::Result<()> {
    numbered(out, 1, 0)?;
    numbered(out, 1, 6)?;
    numbered(out, 1, 8)?;
    numbered(out, 1, 263)?;
    numbered(out, 1, 4294967296)?;
    numbered(out, 1, 4294967303)?;
    numbered(out, 1, u64::MAX)
}

// Out of range, right if it were reduced, and right if it were cut.
fn wrong_tails<W: Write>(out: &mut W) -> io::Result<()> {
    numbered(out, 2, 3)?;
    numbered(out, 2, 4)?;
    numbered(out, 2, 257)?;
    numbered(out, 2, 4294967296)?;
    numbered(out, 2, 4294967297)?;
    numbered(out, 3, 2)?;
    numbered(out, 3, 256)?;
    numbered(out, 3, 4294967296)?;
    numbered(out, 4, 4)?;
    numbered(out, 4, 5)?;
    numbered(out, 4, 257)?;
    numbered(out, 4, 4294967296)?;
    numbered(out, 4, 4294967297)?;
    numbered(out, 5, 8)?;
    numbered(out, 5, 13)?;
    numbered(out, 5, 261)?;
    numbered(out, 5, 4294967296)?;
    numbered(out, 5, 4294967301)?;
    numbered(out, 5, u64::MAX)
}

// A code so many times.
fn filled(code: u8, count: usize) -> [u8; 4096] {
    let mut syllables = [0; 4096];
    if let Some(front) = syllables.get_mut(..count) {
        front.fill(code);
    }
    syllables
}

fn ht_case<W: Write>(
    out: &mut W,
    label: &[u8],
    letters: &[u8],
    count: usize,
    rest: &[u64; 6],
) -> io::Result<()> {
    case(out, label, letters, &filled(2, count), rest)
}

// The I of an empty tail is counted.
fn empty_tails<W: Write>(out: &mut W) -> io::Result<()> {
    ht_case(out, b"nothing, bytes 0", b"T", 0, &[0, 0, 0, 0, 0, 0])?;
    ht_case(out, b"nothing, bytes 2", b"T", 0, &[0, 2, 0, 0, 0, 0])?;
    ht_case(out, b"HT, bytes 2", b"T", 1, &[1, 2, 0, 0, 0, 0])?;
    ht_case(out, b"HT, bytes 3", b"T", 1, &[1, 3, 0, 0, 0, 0])?;
    ht_case(out, b"HT, bytes 4", b"T", 1, &[1, 4, 0, 0, 0, 0])
}

// Each of these four fixes a record, so that a case is its letters alone.
fn almost<W: Write>(out: &mut W, letters: &[u8]) -> io::Result<()> {
    text(out, b"4095 HT, ")?;
    ht_case(out, letters, letters, 4095, &[4095, 8191, 0, 0, 0, 0])
}

fn full<W: Write>(out: &mut W, letters: &[u8]) -> io::Result<()> {
    text(out, b"4096 HT, ")?;
    ht_case(out, letters, letters, 4096, &[4096, 8193, 0, 0, 0, 0])
}

fn full_and_h<W: Write>(out: &mut W, letters: &[u8]) -> io::Result<()> {
    text(out, b"4096 HT and H, ")?;
    ht_case(out, letters, letters, 4096, &[4096, 8193, 1, 0, 1, 5])
}

fn full_and_sh<W: Write>(out: &mut W, letters: &[u8]) -> io::Result<()> {
    text(out, b"4096 HT and SH, ")?;
    ht_case(out, letters, letters, 4096, &[4096, 8194, 2, 0, 0, 3])
}

fn filling<W: Write>(out: &mut W) -> io::Result<()> {
    almost(out, b"HT")?;
    almost(out, b"SHT")?;
    almost(out, b"T")?;
    almost(out, b"HTH")?;
    almost(out, b"HTHT")?;
    almost(out, b"SHTSHT")?;
    almost(out, b"HTT")
}

fn fulls<W: Write>(out: &mut W) -> io::Result<()> {
    full(out, b"I")?;
    full(out, b"H")?;
    full(out, b"S")?;
    full(out, b"X")?;
    full(out, b"W")?;
    full(out, b"T")?;
    full(out, b"TT")?;
    full(out, b"HT")?;
    full(out, b"HTT")?;
    full(out, b"U")
}

// A T is one syllable too many.
fn fulls_with_axis<W: Write>(out: &mut W) -> io::Result<()> {
    full_and_h(out, b"T")?;
    full_and_h(out, b"I")?;
    full_and_h(out, b"H")?;
    full_and_h(out, b"S")?;
    full_and_h(out, b"X")?;
    full_and_h(out, b"W")?;
    full_and_h(out, b"XT")?;
    full_and_h(out, b"U")?;
    full_and_h(out, b"t")?;
    full_and_sh(out, b"T")?;
    full_and_sh(out, b"I")?;
    full_and_sh(out, b"H")?;
    full_and_sh(out, b"S")?;
    full_and_sh(out, b"HT")
}

// A T first, and the longest text.
fn other_fulls<W: Write>(out: &mut W) -> io::Result<()> {
    let mut led = filled(2, 4096);
    led[0] = 1;
    let rest = [4096, 8192, 0, 0, 0, 0];
    case(out, b"T, 4095 HT, T", b"T", &led, &rest)?;
    case(out, b"T, 4095 HT, HT", b"HT", &led, &rest)?;
    let longest = filled(3, 4096);
    let rest = [4096, 12301, 2, 1, 3, 2];
    case(out, b"longest, I", b"I", &longest, &rest)?;
    case(out, b"longest, W", b"W", &longest, &rest)?;
    case(out, b"longest, T", b"T", &longest, &rest)?;
    case(out, b"12302, I", b"I", &longest, &[4096, 12302, 2, 1, 3, 2])?;
    let rest = [4096, 12289, 0, 0, 0, 0];
    case(out, b"4096 SHT, T", b"T", &longest, &rest)
}

fn wrong_fulls<W: Write>(out: &mut W) -> io::Result<()> {
    let mut last = filled(2, 4096);
    last[4095] = 1;
    ht_case(out, b"none last, T", b"T", 4095, &[4096, 8193, 0, 0, 0, 0])?;
    ht_case(out, b"one behind, T", b"T", 4096, &[4095, 8191, 0, 0, 0, 0])?;
    ht_case(out, b"4097, T", b"T", 4096, &[4097, 8193, 0, 0, 0, 0])?;
    ht_case(out, b"8192, T", b"T", 4096, &[4096, 8192, 0, 0, 0, 0])?;
    case(out, b"T last, H", b"H", &last, &[4096, 8192, 0, 0, 0, 0])
}

// 17 before 2, and before 18.
fn orders<W: Write>(out: &mut W) -> io::Result<()> {
    ht_case(out, b"a=3, @", b"@", 0, &[0, 1, 3, 0, 0, 0])?;
    ht_case(out, b"bytes 0, @", b"@", 0, &[0, 0, 0, 0, 0, 0])?;
    ht_case(out, b"8194, T", b"T", 4096, &[4096, 8194, 1, 0, 1, 5])?;
    ht_case(out, b"8194, U", b"U", 4096, &[4096, 8194, 1, 0, 1, 5])
}

fn main(rt: HostRuntime) -> io::Result<()> {
    let mut out = rt.stdout();
    document(&mut out)?;
    identities(&mut out)?;
    removals(&mut out)?;
    small_letters(&mut out)?;
    no_letters(&mut out)?;
    alphabet(&mut out)?;
    wrong_codes(&mut out)?;
    codes_behind(&mut out)?;
    wrong_counts(&mut out)?;
    wrong_bytes(&mut out)?;
    wrong_tails(&mut out)?;
    empty_tails(&mut out)?;
    tails::tails(&mut out)?;
    filling(&mut out)?;
    fulls(&mut out)?;
    fulls_with_axis(&mut out)?;
    other_fulls(&mut out)?;
    wrong_fulls(&mut out)?;
    orders(&mut out)
}
