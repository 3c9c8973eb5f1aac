// Requests: the head, which has the job, the room and the payload's size, and the payload with an LF behind it.
ghost use Rattle.std.specs.Prelude.{◌<◌};

use crate::digits::digit;
use crate::jobs;
use std::io;
use std::io::{Read, Write};

// A byte that is no digit counts as 0.
fn number(digits: &[u8; 5]) -> usize
    ensures { result < 100000 }
{
    let mut n = 0;
    for b in digits {
        n = n * 10 + usize::from(digit(*b).unwrap_or(0));
    }
    n
}

// The job on the payload without its LF, with so much of the buffer lent.
fn run<W: Write>(
    out: &mut W,
    job: u8,
    payload: &[u8],
    lent: &mut [u8],
    room: usize,
) -> io::Result<()> {
    let Some(lent) = lent.get_mut(..room) else {
        return Ok(());
    };
    lent.fill(b'.');
    jobs::answer(out, job, payload, lent)?;
    writeln!(out)
}

// Whether there was a request.
fn one<R: Read, W: Write>(
    from: &mut R,
    out: &mut W,
    payload: &mut [u8],
    lent: &mut [u8],
) -> io::Result<bool> {
    let mut head = [0u8; 14];
    if input::read_full(from, &mut head)? < head.len() {
        return Ok(false);
    }
    let [job, _, a, b, c, d, e, _, f, g, h, i, j, _] = head;
    let room = number(&[a, b, c, d, e]);
    let size = number(&[f, g, h, i, j]);
    let Some(payload) = payload.get_mut(..size + 1) else {
        return Ok(false);
    };
    if input::read_full(from, payload)? <= size {
        return Ok(false);
    }
    run(out, job, &payload[..size], lent, room)?;
    Ok(true)
}

pub fn all<R: Read, W: Write>(
    from: &mut R,
    out: &mut W,
    payload: &mut [u8],
    lent: &mut [u8],
) -> io::Result<()> {
    // At most so many, as a loop must be seen to end, and a stream need not.
    for _ in 0..1000000 {
        if !one(from, out, payload, lent)? {
            break;
        }
    }
    Ok(())
}
