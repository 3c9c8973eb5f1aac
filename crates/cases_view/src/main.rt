// Job 7 on either side of each limit, and its views as bits: a line for the refusal and one for each of the eight numbers, compared with stdout.
#![tactic(auto)]

ghost use Rattle.cases_view.specs.Finite.{Finite};

use ring::{Triple, ZOmega};
use std::io;
use std::io::Write;
use view::matrix::View;

fn lines<W: Write>(out: &mut W, v: View) -> io::Result<()>
    requires { Finite v }
{
    for x in [
        v.re00, v.im00, v.re01, v.im01, v.re10, v.im10, v.re11, v.im11,
    ] {
        writeln!(out, "{:016x}", x.to_bits())?;
    }
    Ok(())
}

// A triple's four parts one by one: most cases then fit a line. A refusal's numbers are eight zeros.
fn case<W: Write>(out: &mut W, label: &str, k: i64, n: u8, z: ZOmega, w: ZOmega) -> io::Result<()> {
    match view::view(Triple { k, n, z, w }) {
        Ok(v) => {
            writeln!(out, "{label}: refusal=0")?;
            lines(out, v)
        }
        Err(refusal) => {
            writeln!(out, "{label}: refusal={}", refusal.number())?;
            lines(out, View::default())
        }
    }
}

fn views<W: Write>(out: &mut W) -> io::Result<()> {
    let nil = ZOmega::ZERO;
    let one = ZOmega::ONE;
    case(out, "identity", 0, 0, one, nil)?;
    case(out, "H", 1, 4, one, one)?;
    case(out, "T", 0, 1, one, nil)?;
    case(out, "X", 0, 4, nil, one)?;
    case(out, "n=255", 0, 255, one, nil)?;
    case(out, "k=60", 60, 0, ZOmega::new(0, 0, 0, 1073741824), nil)?;
    case(
        out,
        "k=60, reduced",
        60,
        1,
        ZOmega::new(-191924351, -210280441, 4968170, -439776288),
        ZOmega::new(480679003, -656194707, -134730066, -445695894),
    )?;
    case(
        out,
        "k=59, reduced",
        59,
        5,
        ZOmega::new(-100413179, 84257655, 280559047, -81296202),
        ZOmega::new(548061632, -151774328, -385579776, -43328735),
    )
}

fn refusals<W: Write>(out: &mut W) -> io::Result<()> {
    let nil = ZOmega::ZERO;
    let one = ZOmega::ONE;
    case(out, "k=61", 61, 0, one, nil)?;
    case(out, "k=-1", -1, 0, one, nil)?;
    case(out, "2^30+1", 60, 0, ZOmega::new(0, 0, 0, 1073741825), nil)?;
    case(
        out,
        "-2^30-1",
        60,
        0,
        nil,
        ZOmega::new(-1073741825, 0, 0, 0),
    )?;
    case(out, "squares", 0, 0, one, one)?;
    case(out, "crosses", 1, 0, ZOmega::new(0, 0, 1, 1), nil)
}

fn main(rt: HostRuntime) -> io::Result<()> {
    let mut out = rt.stdout();
    views(&mut out)?;
    refusals(&mut out)
}
