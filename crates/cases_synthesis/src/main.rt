// Job 4's cases of docs/SCOPE.md, Either side, with more at each limit and at the room: a line each, compared with stdout.
#![tactic(auto)]

use ring::{Triple, ZOmega};
use shown::text;
use std::io;
use std::io::Write;
use unitary::DOmegaUnitary;

// The whole lent buffer is shown, so that a byte past the length is seen too.
fn case<W: Write>(out: &mut W, label: &str, t: Triple, buf: &mut [u8]) -> io::Result<()> {
    match synthesis_of_clifford_t::synthesise(t, buf) {
        Ok(s) => write!(
            out,
            "{label}: refusal=0 bytes={} t={} steps={}",
            s.bytes, s.tees, s.steps
        )?,
        Err(refusal) => write!(
            out,
            "{label}: refusal={} bytes=0 t=0 steps=0",
            refusal.number()
        )?,
    }
    text(out, b" buffer=")?;
    text(out, buf)?;
    writeln!(out)
}

// The triple's four parts one by one, so that a case is a line.
fn short<W: Write>(
    out: &mut W,
    label: &str,
    k: i64,
    n: u8,
    z: ZOmega,
    w: ZOmega,
) -> io::Result<()> {
    case(out, label, Triple { k, n, z, w }, &mut [b'.'; 16])
}

fn refusals<W: Write>(out: &mut W) -> io::Result<()> {
    let zero = ZOmega::ZERO;
    let one = ZOmega::ONE;
    let top = ZOmega::new(0, 0, 0, 1073741824);
    let over = ZOmega::new(0, 0, 0, 1073741825);
    let under = ZOmega::new(-1073741825, 0, 0, 0);
    let crossed = ZOmega::new(0, 0, 1, 1);
    short(out, "k=61", 61, 0, top, zero)?;
    short(out, "k=-1", -1, 0, one, zero)?;
    short(out, "k=-1 before 2^30+1", -1, 0, over, zero)?;
    short(out, "2^30+1", 60, 0, over, zero)?;
    short(out, "-2^30-1 before unitary", 60, 0, top, under)?;
    short(out, "z=w=1, k=0", 0, 0, one, one)?;
    short(out, "only the squares fit", 1, 0, crossed, zero)?;
    let both_one = Triple {
        k: 0,
        n: 0,
        z: one,
        w: one,
    };
    case(out, "unitary before room", both_one, &mut [])
}

fn at_zero<W: Write>(out: &mut W) -> io::Result<()> {
    let zero = ZOmega::ZERO;
    let one = ZOmega::ONE;
    short(out, "X", 0, 4, zero, one)?;
    short(out, "TI", 0, 1, one, zero)?;
    short(out, "longest closing", 0, 1, zero, one)?;
    short(out, "n=255", 0, 255, one, zero)?;
    short(out, "z=-omega^2", 0, 3, ZOmega::new(0, -1, 0, 0), zero)?;
    short(out, "w=-omega^3", 0, 6, zero, ZOmega::new(-1, 0, 0, 0))
}

// n from 0 to 7, with w = 0 and with z = 0.
fn each_n<W: Write>(out: &mut W) -> io::Result<()> {
    for n in 0..8 {
        short(out, "w=0, next n", 0, n, ZOmega::ONE, ZOmega::ZERO)?;
        short(out, "z=0, next n", 0, n, ZOmega::ZERO, ZOmega::ONE)?;
    }
    Ok(())
}

fn unreduced<W: Write>(out: &mut W) -> io::Result<()> {
    let zero = ZOmega::ZERO;
    let top = ZOmega::new(0, 0, 0, 1073741824);
    let root = ZOmega::new(-536870912, 0, 536870912, 0);
    short(out, "identity at k=1", 1, 0, ZOmega::new(-1, 0, 1, 0), zero)?;
    short(out, "identity at k=60", 60, 0, top, zero)?;
    short(
        out,
        "-identity at k=60",
        60,
        0,
        ZOmega::new(0, 0, 0, -1073741824),
        zero,
    )?;
    short(out, "X at k=60", 60, 4, zero, top)?;
    short(out, "H at k=60", 60, 4, root, root)
}

fn steps<W: Write>(out: &mut W) -> io::Result<()> {
    let one = ZOmega::ONE;
    short(out, "H", 1, 4, one, one)?;
    short(
        out,
        "HSH",
        1,
        2,
        ZOmega::new(0, 0, 1, 0),
        ZOmega::new(-1, 0, 0, 0),
    )?;
    short(
        out,
        "HTHT",
        2,
        2,
        ZOmega::new(0, 0, 1, 1),
        ZOmega::new(0, 0, -1, 1),
    )?;
    short(
        out,
        "k=3, four steps",
        3,
        0,
        ZOmega::new(0, 0, 1, -1),
        ZOmega::new(-1, 1, 0, 2),
    )?;
    short(
        out,
        "k=3, five steps",
        3,
        7,
        ZOmega::new(1, 1, 1, 0),
        ZOmega::new(2, 0, 0, 1),
    )
}

fn steps_and_tees<W: Write>(out: &mut W) -> io::Result<()> {
    short(
        out,
        "four steps, five T",
        3,
        5,
        ZOmega::new(-1, 2, 0, 1),
        ZOmega::new(0, 0, 1, 1),
    )?;
    short(
        out,
        "five steps, four T",
        3,
        0,
        ZOmega::new(0, 0, 2, 1),
        ZOmega::new(1, -1, 1, 0),
    )?;
    short(
        out,
        "the same at k=4, n=8",
        4,
        8,
        ZOmega::new(-1, 2, 1, 2),
        ZOmega::new(-1, 2, -1, 0),
    )
}

fn room<W: Write>(out: &mut W) -> io::Result<()> {
    let t = Triple {
        k: 0,
        n: 1,
        z: ZOmega::ONE,
        w: ZOmega::ZERO,
    };
    case(out, "T with 2 bytes", t, &mut [b'.'; 2])?;
    case(out, "T with 1 byte", t, &mut [b'.'; 1])?;
    let longest = Triple {
        k: 60,
        n: 3,
        z: ZOmega::new(336131978, 357764841, 607162297, -58998357),
        w: ZOmega::new(644527791, -249397456, 0, 249397456),
    };
    case(out, "HT 119 times", longest, &mut [b'.'; 239])?;
    case(out, "HT 119 times, a byte short", longest, &mut [b'.'; 238])
}

fn t_inverse<W: Write>(out: &mut W) -> io::Result<()> {
    let r = DOmegaUnitary::identity().mul_by_t_inv_from_left();
    writeln!(out, "T inverse at n=0: n={} w={}", r.n, r.w.d)
}

fn main(rt: HostRuntime) -> io::Result<()> {
    let mut out = rt.stdout();
    refusals(&mut out)?;
    at_zero(&mut out)?;
    each_n(&mut out)?;
    unreduced(&mut out)?;
    steps(&mut out)?;
    steps_and_tees(&mut out)?;
    room(&mut out)?;
    t_inverse(&mut out)
}
