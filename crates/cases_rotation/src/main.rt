// The T count and the rotation on either side of each limit: a line for both refusals, the count and the exponent, then the nine entries row by row,
// p,q for p + q·root two; compared with stdout.
#![tactic(auto)]

use exact::{ACCEPTED, Refusal};
use ring::{Triple, ZOmega};
use root_two::Root;
use rotation::Rotation;
use std::io;
use std::io::Write;

fn row<W: Write>(out: &mut W, a: Root, b: Root, c: Root) -> io::Result<()> {
    writeln!(out, "{},{} {},{} {},{}", a.p, a.q, b.p, b.q, c.p, c.q)
}

// A Rotation has columns.
fn rows<W: Write>(out: &mut W, r: Rotation) -> io::Result<()> {
    row(out, r.x.x, r.y.x, r.z.x)?;
    row(out, r.x.y, r.y.y, r.z.y)?;
    row(out, r.x.z, r.y.z, r.z.z)
}

// The number of a refusal, and 0 where there is none.
fn refusal<T: Copy>(outcome: Result<T, Refusal>) -> u8 {
    match outcome {
        Ok(_) => ACCEPTED,
        Err(refusal) => refusal.number(),
    }
}

// A triple's four parts one by one: most cases then fit a line. A refusal's numbers are zeros.
fn case<W: Write>(out: &mut W, label: &str, k: i64, n: u8, z: ZOmega, w: ZOmega) -> io::Result<()> {
    let t = Triple { k, n, z, w };
    let count = rotation::t_count(t);
    let rotation = rotation::rotate(t);
    let tees = count.unwrap_or(0);
    let r = rotation.unwrap_or_default();
    write!(out, "{label}: refusal={} t={tees}", refusal(count))?;
    writeln!(out, ", refusal={} e={}", refusal(rotation), r.e)?;
    rows(out, r)
}

fn letters<W: Write>(out: &mut W) -> io::Result<()> {
    let zero = ZOmega::ZERO;
    let one = ZOmega::ONE;
    case(out, "identity", 0, 0, one, zero)?;
    case(out, "T", 0, 1, one, zero)?;
    case(out, "S", 0, 2, one, zero)?;
    case(out, "H", 1, 4, one, one)?;
    case(out, "X", 0, 4, zero, one)?;
    case(out, "W", 0, 2, ZOmega::new(0, 0, 1, 0), zero)
}

fn words<W: Write>(out: &mut W) -> io::Result<()> {
    let zero = ZOmega::ZERO;
    let one = ZOmega::ONE;
    let omega = ZOmega::new(0, 0, 1, 0);
    case(out, "HT", 1, 5, one, one)?;
    case(out, "WHT", 1, 7, omega, omega)?;
    case(out, "SHT", 1, 7, one, ZOmega::new(0, 1, 0, 0))?;
    case(out, "THT", 1, 6, one, omega)?;
    case(
        out,
        "HTHT",
        2,
        2,
        ZOmega::new(0, 0, 1, 1),
        ZOmega::new(0, 0, -1, 1),
    )?;
    case(
        out,
        "five steps, four T",
        3,
        0,
        ZOmega::new(0, 0, 2, 1),
        ZOmega::new(1, -1, 1, 0),
    )?;
    case(
        out,
        "four steps, five T",
        3,
        5,
        ZOmega::new(-1, 2, 0, 1),
        ZOmega::new(0, 0, 1, 1),
    )?;
    case(out, "n=255", 0, 255, one, zero)?;
    case(out, "n=255, k=1", 1, 255, one, one)
}

fn unreduced<W: Write>(out: &mut W) -> io::Result<()> {
    let zero = ZOmega::ZERO;
    let root = ZOmega::new(-536870912, 0, 536870912, 0);
    let z = ZOmega::new(0, 0, 536870912, 536870912);
    let w = ZOmega::new(0, 0, -536870912, 536870912);
    case(
        out,
        "HTHT at k=5",
        5,
        2,
        ZOmega::new(-2, 2, 2, 2),
        ZOmega::new(-2, -2, 2, -2),
    )?;
    case(out, "HTHT at k=60", 60, 2, z, w)?;
    case(
        out,
        "THT at k=2, n=254",
        2,
        254,
        ZOmega::new(-1, 0, 1, 0),
        ZOmega::new(0, 1, 0, 1),
    )?;
    case(out, "H at k=60", 60, 4, root, root)?;
    case(
        out,
        "z=2^30 omega^3",
        60,
        0,
        ZOmega::new(1073741824, 0, 0, 0),
        zero,
    )?;
    case(
        out,
        "w=-2^30 omega, n=9",
        60,
        9,
        zero,
        ZOmega::new(0, 0, -1073741824, 0),
    )
}

fn reduced_at_60<W: Write>(out: &mut W) -> io::Result<()> {
    case(
        out,
        "dial60",
        60,
        0,
        ZOmega::new(1157917, 241244727, 257304114, 252947704),
        ZOmega::new(391597696, 44672128, 715598589, -545075685),
    )?;
    case(
        out,
        "wide60",
        60,
        248,
        ZOmega::new(-390206113, -345627558, -109017700, -841266601),
        ZOmega::new(-225190364, -225220776, -137772297, -202907931),
    )?;
    let z = ZOmega::new(336131978, 357764841, 607162297, -58998357);
    let w = ZOmega::new(644527791, -249397456, 0, 249397456);
    let turned = ZOmega::new(-249397456, 0, 249397456, -644527791);
    case(out, "HT 119 times", 60, 3, z, w)?;
    case(out, "T, HT 119 times", 60, 4, z, turned)
}

fn refusals<W: Write>(out: &mut W) -> io::Result<()> {
    let zero = ZOmega::ZERO;
    let one = ZOmega::ONE;
    let top = ZOmega::new(0, 0, 0, 1073741824);
    let over = ZOmega::new(0, 0, 0, 1073741825);
    let under = ZOmega::new(-1073741825, 0, 0, 0);
    let crossed = ZOmega::new(0, 0, 1, 1);
    case(out, "k=-1", -1, 0, one, zero)?;
    case(out, "k=61", 61, 0, top, zero)?;
    case(out, "k=256", 256, 0, one, zero)?;
    case(out, "2^30+1", 60, 0, over, zero)?;
    case(out, "-2^30-1", 60, 0, zero, under)?;
    case(out, "squares", 0, 0, one, one)?;
    case(out, "crosses", 1, 0, crossed, zero)?;
    case(out, "k=-1 before 2^30+1", -1, 0, over, zero)?;
    case(out, "k=61 before unitary", 61, 0, one, one)?;
    case(out, "-2^30-1 before unitary", 60, 0, top, under)
}

fn main(rt: HostRuntime) -> io::Result<()> {
    let mut out = rt.stdout();
    letters(&mut out)?;
    words(&mut out)?;
    unreduced(&mut out)?;
    reduced_at_60(&mut out)?;
    refusals(&mut out)
}
