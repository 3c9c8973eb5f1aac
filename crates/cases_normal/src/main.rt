// Cases of jobs 3 and 5, on either side of each limit: a line each, compared with stdout.
#![tactic(auto)]

use exact::Refusal;
use normal_form::Counts;
use shown::text;
use std::io;
use std::io::Write;

fn handed<W: Write>(out: &mut W, label: &str, r: Result<Counts, Refusal>) -> io::Result<()> {
    match r {
        Ok(c) => write!(
            out,
            "{label}: refusal=0 place=0 bytes={} t={} ",
            c.bytes, c.tees
        ),
        Err(e) => write!(
            out,
            "{label}: refusal={} place={} bytes=0 t=0 ",
            e.number(),
            e.place()
        ),
    }
}

// The whole buffer is shown, so that a byte that should not have been written is seen.
fn case<W: Write, J: Fn(&[u8], &mut [u8]) -> Result<Counts, Refusal>>(
    out: &mut W,
    job: J,
    word: &str,
    room: usize,
) -> io::Result<()>
    requires { J.IsAlwaysCallable job }
{
    let mut buf = [b'.'; 16];
    let Some(lent) = buf.get_mut(..room) else {
        return Ok(());
    };
    let r = job(word.as_bytes(), lent);
    handed(out, word, r)?;
    text(out, &buf)?;
    writeln!(out)
}

fn job3<W: Write>(out: &mut W, word: &str, room: usize) -> io::Result<()> {
    case(out, normal_form::normalise, word, room)
}

fn job5<W: Write>(out: &mut W, word: &str, room: usize) -> io::Result<()> {
    case(out, normal_form::phase_free, word, room)
}

fn document<W: Write>(out: &mut W) -> io::Result<()> {
    for word in [
        "", "T", "TT", "TTTT", "HH", "HTT", "SHTT", "HSH", "XT", "WT", "HTHT",
    ] {
        job3(out, word, 16)?;
    }
    Ok(())
}

fn phase_free_words<W: Write>(out: &mut W) -> io::Result<()> {
    for (word, room) in [
        ("", 1),
        ("", 0),
        ("T", 16),
        ("T", 2),
        ("T", 1),
        ("TW", 16),
        ("TW", 2),
        ("TW", 1),
        ("WT", 2),
        ("WT", 1),
        ("W", 16),
        ("W", 1),
        ("W", 0),
        ("HW", 1),
        ("HW", 0),
        ("XSW", 2),
        ("XSW", 1),
        ("HSH", 16),
        ("XT", 3),
        ("XT", 2),
        ("WWWWWWWW", 1),
        ("WWWWWWWW", 0),
    ] {
        job5(out, word, room)?;
    }
    Ok(())
}

fn identities<W: Write>(out: &mut W) -> io::Result<()> {
    for (word, room) in [
        ("I", 16),
        ("I", 1),
        ("I", 0),
        ("II", 16),
        ("IT", 16),
        ("ITI", 16),
        ("HIH", 16),
        ("SHTIT", 16),
        ("HTI", 16),
        ("HTIHT", 16),
        ("IXTHS", 16),
        ("XITHS", 16),
        ("XTIHS", 16),
        ("XTHIS", 16),
        ("XTHSI", 16),
    ] {
        job3(out, word, room)?;
    }
    for (word, room) in [
        ("I", 16),
        ("I", 0),
        ("TIW", 16),
        ("WI", 16),
        ("XIT", 3),
        ("XIT", 2),
    ] {
        job5(out, word, room)?;
    }
    Ok(())
}

// Normal words, which are given back as they are, and so are the words of job 5, which have no W.
fn given_back<W: Write>(out: &mut W) -> io::Result<()> {
    job3(out, "TI", 2)?;
    job3(out, "TI", 1)?;
    job3(out, "TXSWWWWWWW", 10)?;
    job3(out, "TXSWWWWWWW", 9)?;
    job3(out, "THTSHTI", 7)?;
    job3(out, "SHTSHXSSSW", 10)?;
    job5(out, "SHTSHXSSSW", 9)?;
    job3(out, "SHTSHXSSS", 9)?;
    job5(out, "SHTSHXSSS", 9)?;
    job5(out, "TI", 2)?;
    job5(out, "TI", 1)
}

fn places<W: Write>(out: &mut W) -> io::Result<()> {
    job3(out, "hHT", 16)?;
    job3(out, "i", 16)?;
    job3(out, "iI", 16)?;
    job3(out, "Ii", 16)?;
    job3(out, "HTxyz", 0)?;
    job3(out, "HT?IHT", 16)?;
    job3(out, "HTI?HT", 16)?;
    job5(out, "HTI?HT", 0)
}

fn rooms<W: Write>(out: &mut W) -> io::Result<()> {
    for (word, room) in [
        ("T", 2),
        ("T", 1),
        ("XT", 11),
        ("XT", 10),
        ("XT", 9),
        ("XT", 0),
        ("", 0),
        ("", 1),
    ] {
        job3(out, word, room)?;
    }
    Ok(())
}

// The bytes that are a word by themselves.
fn alphabet<W: Write>(out: &mut W) -> io::Result<()> {
    write!(out, "taken alone:")?;
    for b in 0..=u8::MAX {
        if normal_form::normalise(&[b], &mut [b'.'; 16]).is_ok() {
            write!(out, " {b}")?;
        }
    }
    writeln!(out)
}

// Of the buffer its first four bytes and its last ten.
fn ends<W: Write>(out: &mut W, buf: &[u8]) -> io::Result<()> {
    let (Some(front), Some(back)) = (buf.get(..4), buf.get(4090..)) else {
        return Ok(());
    };
    text(out, front)?;
    text(out, b"..")?;
    text(out, back)
}

// The first so many letters of a word.
fn long_word<W: Write>(out: &mut W, label: &str, word: &[u8], letters: usize) -> io::Result<()> {
    let Some(begun) = word.get(..letters) else {
        return Ok(());
    };
    let mut buf = [b'.'; 4100];
    let r = normal_form::normalise(begun, &mut buf);
    handed(out, label, r)?;
    ends(out, &buf)?;
    writeln!(out)
}

// T and then HT over and over.
fn most_syllables<W: Write>(out: &mut W) -> io::Result<()> {
    let mut word = [b'T'; 4097];
    for (i, letter) in word.iter_mut().enumerate() {
        if i % 2 == 1 {
            *letter = b'H';
        }
    }
    long_word(out, "2048 syllables", &word, 4095)?;
    long_word(out, "2048 syllables and H", &word, 4096)?;
    long_word(out, "4097 letters", &word, 4097)
}

// HT 409 times, and then its inverse: H behind each seven T.
fn up_and_back<W: Write>(out: &mut W) -> io::Result<()> {
    let mut word = [b'T'; 4090];
    for (i, letter) in word.iter_mut().enumerate() {
        let is_h = if i < 818 {
            i % 2 == 0
        } else {
            (i - 818) % 8 == 7
        };
        if is_h {
            *letter = b'H';
        }
    }
    long_word(out, "up", &word, 818)?;
    long_word(out, "up and down", &word, 4090)
}

fn long_words<W: Write>(out: &mut W) -> io::Result<()> {
    most_syllables(out)?;
    up_and_back(out)?;
    long_word(out, "4096 T", &[b'T'; 4096], 4096)?;
    long_word(out, "4096 I", &[b'I'; 4096], 4096)?;
    long_word(out, "4097 I", &[b'I'; 4097], 4097)
}

fn main(rt: HostRuntime) -> io::Result<()> {
    let mut out = rt.stdout();
    document(&mut out)?;
    phase_free_words(&mut out)?;
    identities(&mut out)?;
    given_back(&mut out)?;
    places(&mut out)?;
    rooms(&mut out)?;
    alphabet(&mut out)?;
    long_words(&mut out)
}
