// Cases of `agree`: whether the two ways are alike, then each way's answer and lent bytes, a line each, compared with stdout.
#![tactic(auto)]

use exact::Refusal;
use normal_form::Counts;
use shown::text;
use std::io;
use std::io::Write;

fn handed<W: Write>(out: &mut W, r: Result<Counts, Refusal>) -> io::Result<()> {
    match r {
        Ok(c) => write!(out, " refusal=0 place=0 bytes={} t={}", c.bytes, c.tees),
        Err(e) => write!(
            out,
            " refusal={} place={} bytes=0 t=0",
            e.number(),
            e.place()
        ),
    }
}

fn shown_as<W: Write>(
    out: &mut W,
    label: &str,
    word: &[u8],
    first: &mut [u8],
    second: &mut [u8],
) -> io::Result<()> {
    let r = agreement::agree(word, first, second);
    let yes = if r.yes { "yes" } else { "no" };
    write!(out, "{label}: {yes},")?;
    handed(out, r.first)?;
    write!(out, ",")?;
    handed(out, r.second)
}

// The whole buffers are shown, so that a byte that should not have been written is seen.
fn in_rooms<W: Write>(
    out: &mut W,
    word: &str,
    first: &mut [u8],
    second: &mut [u8],
) -> io::Result<()> {
    shown_as(out, word, word.as_bytes(), first, second)?;
    text(out, b" ")?;
    text(out, first)?;
    text(out, b" ")?;
    text(out, second)?;
    writeln!(out)
}

fn agree<W: Write>(out: &mut W, word: &str) -> io::Result<()> {
    in_rooms(out, word, &mut [b'.'; 16], &mut [b'.'; 16])
}

fn rooms<W: Write>(out: &mut W) -> io::Result<()> {
    let mut one = [b'.'; 1];
    in_rooms(out, "T", &mut one, &mut [b'.'; 2])?;
    in_rooms(out, "T", &mut [b'.'; 2], &mut one)
}

fn long<W: Write>(out: &mut W, label: &str, word: &[u8]) -> io::Result<()> {
    let mut first = [b'.'; exact::ENOUGH];
    let mut second = [b'.'; exact::ENOUGH];
    shown_as(out, label, word, &mut first, &mut second)?;
    writeln!(out)
}

fn identities<W: Write>(out: &mut W) -> io::Result<()> {
    for word in [
        "I",
        "II",
        "TI",
        "ITI",
        "HIH",
        "SHTIT",
        "XTHSHT",
        "IXTHSHT",
        "XITHSHT",
        "XTIHSHT",
        "XTHISHT",
        "XTHSIHT",
        "XTHSHIT",
        "XTHSHTI",
        "IXITIHISIHITI",
        "i",
        "TI?",
    ] {
        agree(out, word)?;
    }
    long(out, "I 4096 times", &[b'I'; 4096])?;
    long(out, "I 4097 times", &[b'I'; 4097])
}

fn main(rt: HostRuntime) -> io::Result<()> {
    let mut out = rt.stdout();
    for word in ["", "T", "SHTT", "HSH", "XT", "HTHT", "HT?"] {
        agree(&mut out, word)?;
    }
    identities(&mut out)?;
    rooms(&mut out)?;
    long(&mut out, "W 4096 times", &[b'W'; 4096])?;
    long(&mut out, "W 4097 times", &[b'W'; 4097])?;
    long(
        &mut out,
        "HT 122 times",
        b"HTHTHTHTHTHTHTHTHTHTHTHTHTHTHTHTHTHTHTHTHTHTHTHTHTHTHTHTHTHTHTHTHTHTHTHTHTHTHTHTHTHTHTHTHTHTHTHTHTHTHTHTHTHTHTHTHTHTHTHTHTHTHTHTHTHTHTHTHTHTHTHTHTHTHTHTHTHTHTHTHTHTHTHTHTHTHTHTHTHTHTHTHTHTHTHTHTHTHTHTHTHTHTHTHTHTHTHTHTHTHTHTHTHTHTHTHTHTHTHTHTHT",
    )
}
