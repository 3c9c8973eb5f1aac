// The bench program: a record on standard input, its answer on standard output.
#![tactic(auto)]

ghost use Rattle.std.specs.Prelude.{◌≤◌, ◌<◌, length, IfOk, IfSome};
ghost use Rattle.input.specs.Counts.{IsPrefixLen};
ghost use Rattle.record.specs.Longest.{longest_record};
ghost use Rattle.dunrossel.specs.Beginning.{Answers};
ghost use Rattle.dunrossel.specs.Meaning.Bench.{BenchOutcome};

use std::io;
use std::io::Read;
use std::process::ExitCode;

// The answer to a whole input, of which the buffer has the first `size` bytes: all, or as many as it holds. The buffer and no slice of it, as only
// a full one leaves more to read.
fn answer(buffer: &[u8], size: usize, out: &mut [u8; 512]) -> usize
    requires fact_1 { longest_record < length buffer.now }
    requires fact_2 { size ≤ length buffer.now }
    ensures answers { Answers buffer.now size out.old result out.new }
    ensures prefix_len { IsPrefixLen result out.new }
{
    dunrossel::dunrossel_bench(&buffer[..size], out)
}

// The answer to all that the stream has left, of which no more is read than shows that it is too long for a record.
fn answer_stream<R: Read>(from: &mut R, out: &mut [u8; 512]) -> io::Result<usize>
    ensures answers { IfOk result (λ bytes. IfSome (R.remaining from.old) (λ input. BenchOutcome input out.old bytes out.new)) }
    ensures prefix_len { IfOk result (λ bytes. IsPrefixLen bytes out.new) }
{
    let mut buffer = record::input_buffer();
    let size = input::read_full(from, &mut buffer)?;
    Ok(answer(&buffer, size, out))
}

fn main(rt: HostRuntime) -> io::Result<ExitCode> {
    let mut out = [0u8; 512];
    let bytes = answer_stream(&mut rt.stdin(), &mut out)?;
    if rt.write_all(&out[..bytes]).is_err() {
        eprintln!(rt; "bench: the answer could not be written")?;
        return Ok(ExitCode::FAILURE);
    }
    Ok(ExitCode::SUCCESS)
}
