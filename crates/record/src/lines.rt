// The record's lines: a name and `=`, then a number or four, then LF. What is found comes with the place behind it, as in
// crate decimal.
ghost use Rattle.std.specs.Prelude.{drop};
ghost use Rattle.record.specs.Read.{NameIs, FourIs, RingIs, KIs, NIs};

use ring::ZOmega;

// The place behind a name and `=`.
fn name_at(s: &[u8], at: usize, name: u8) -> Option<usize>
    ensures { NameIs s.now (drop at s.now) name result }
{
    if *s.get(at)? != name {
        return None;
    }
    let equals = at + 1;
    if *s.get(equals)? != b'=' {
        return None;
    }
    Some(equals + 1)
}

// Four numbers parted by commas, and LF.
fn four_at(s: &[u8], at: usize) -> Option<(ZOmega, usize)>
    ensures { FourIs s.now (drop at s.now) result }
{
    let (a, second) = decimal::whole_at(s, at, b',')?;
    let (b, third) = decimal::whole_at(s, second, b',')?;
    let (c, fourth) = decimal::whole_at(s, third, b',')?;
    let (d, next) = decimal::whole_at(s, fourth, b'\n')?;
    Some((ZOmega { a, b, c, d }, next))
}

pub(crate) fn ring_at(s: &[u8], at: usize, name: u8) -> Option<(ZOmega, usize)>
    ensures { RingIs s.now (drop at s.now) name result }
{
    let value = name_at(s, at, name)?;
    four_at(s, value)
}

pub(crate) fn k_at(s: &[u8], at: usize) -> Option<(i64, usize)>
    ensures { KIs s.now (drop at s.now) result }
{
    let value = name_at(s, at, b'k')?;
    decimal::whole_at(s, value, b'\n')
}

pub(crate) fn n_at(s: &[u8], at: usize) -> Option<(u64, usize)>
    ensures { NIs s.now (drop at s.now) result }
{
    let value = name_at(s, at, b'n')?;
    decimal::natural_at(s, value, b'\n', 255)
}
