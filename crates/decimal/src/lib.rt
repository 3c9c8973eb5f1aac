// Decimal numbers in a slice, each ended by a byte that is no digit. A place and no slice from there on: the laws of specs/ReadLaws (`Found`, `Reading`)
// speak of places in the whole.
#![tactic(auto)]

ghost use Rattle.std.specs.Prelude.{◌≡◌, ◌<◌, ◌∷◌, length, get_or, drop};
ghost use Rattle.decimal.specs.Read.{DigitIs, PushIs, NaturalIs, WholeIs};

pub mod text;

// The first digit, at most `most`.
fn digit(b: u8, most: u64) -> Option<u64>
    ensures { DigitIs b most result }
{
    if !b.is_ascii_digit() {
        return None;
    }
    let d = u64::from(b - b'0');
    if d > most {
        return None;
    }
    Some(d)
}

// One digit more after those of `front`: not after a leading zero, and not past `most`.
fn push(front: u64, b: u8, most: u64) -> Option<u64>
    ensures { PushIs front b most result }
{
    if front == 0 {
        return None;
    }
    let d = digit(b, 9)?;
    if front > most / 10 {
        return None;
    }
    let tens = front * 10;
    if d > most - tens {
        return None;
    }
    Some(tens + d)
}

// The number from 0 to `most` at a place, with `end` behind it, and the place behind that. A byte and no type of its own is plainer: `,` and LF are seen
// to be below 48 at each call.
pub fn natural_at(s: &[u8], at: usize, end: u8, most: u64) -> Option<(u64, usize)>
    requires { end < 48 }
    ensures { NaturalIs s.now (drop at s.now) end most result }
{
    if at >= s.len() {
        return None;
    }
    let mut value = digit(s[at], most)?;
    for i in at + 1..s.len() {
        let b = s[i];
        if b == end {
            return Some((value, i + 1));
        }
        value = push(value, b, most)?;
    }
    None
}

// The number in 64-bit signed range at a place, with `end` behind it, and the place behind that.
pub fn whole_at(s: &[u8], at: usize, end: u8) -> Option<(i64, usize)>
    requires { end < 48 }
    ensures { WholeIs s.now (drop at s.now) end result }
{
    if at >= s.len() {
        return None;
    }
    if s[at] == b'-' {
        negative_at(s, at + 1, end)
    } else {
        positive_at(s, at, end)
    }
}

// The same where there is no minus.
fn positive_at(s: &[u8], at: usize, end: u8) -> Option<(i64, usize)>
    requires { (end < 48) × (at < length s.now) × (get_or s.now at 0 ≡ 45 → ⊥) }
    ensures { WholeIs s.now (drop at s.now) end result }
{
    let (value, next) = natural_at(s, at, end, 9223372036854775807)?;
    Some((value as i64, next))
}

// The same behind a minus, where a number is not 0 and may be one larger, so that one function for both would be no plainer.
fn negative_at(s: &[u8], at: usize, end: u8) -> Option<(i64, usize)>
    requires { end < 48 }
    ensures { WholeIs s.now (45 ∷ drop at s.now) end result }
{
    let (value, next) = natural_at(s, at, end, 9223372036854775808)?;
    if value == 0 {
        return None;
    }
    // One less fits where the number itself may not: -1 - (value - 1).
    let less = (value - 1) as i64;
    Some((-1 - less, next))
}
