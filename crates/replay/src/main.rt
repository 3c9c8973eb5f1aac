// Replays the oracle's sample: runs the job of each request on standard input and writes its answer, a line each. README.md beside src/ has the format.
#![tactic(auto)]

mod digits;
mod jobs;
mod requests;
mod slots;

use std::io;

fn main(rt: HostRuntime) -> io::Result<()> {
    let mut payload = [0u8; 10496];
    let mut lent = [0u8; 4608];
    requests::all(&mut rt.stdin(), &mut rt.stdout(), &mut payload, &mut lent)
}
