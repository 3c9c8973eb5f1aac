// The bench record, read from a slice, and its answer, written to a slice, to the byte as in docs/SCOPE.md, The record.
#![tactic(auto)]

mod lines;

ghost use Rattle.std.specs.Prelude.{◌≡◌, ◌+◌, ◌≤◌, length};
ghost use Rattle.std.specs.Option.{ok_or};
ghost use Rattle.exact.specs.Meaning.Limits.{enough};
ghost use Rattle.exact.specs.Meaning.Record.{answer_lines, count_lines};
ghost use Rattle.exact.specs.declared.Refusal.{Refusal};
ghost use Rattle.record.specs.Meaning.{record_of, ReadOutcome, WriteOutcome};
ghost use Rattle.record.specs.Longest.{longest_record};
ghost use Rattle.lent.specs.Written.{Written};

use decimal::text;
use exact::Refusal;
use ring::Triple;

// The bytes of the longest right record: whoever has read more can stop, and the answer is 8.
const LONGEST_RECORD: usize = 201;

// Zeros, one more than any right record has bytes, to read an input into.
pub fn input_buffer() -> [u8; LONGEST_RECORD + 1]
    ensures { longest_record + 1 ≡ length result }
{
    [0; LONGEST_RECORD + 1]
}

// The numbers of a right record; any other input, however long, is refused 8.
pub fn read(s: &[u8]) -> Result<Triple, Refusal>
    ensures { ReadOutcome s.now (record_of result) }
{
    numbers_in(s).ok_or(Refusal::Record)
}

fn numbers_in(s: &[u8]) -> Option<Triple>
    ensures { ReadOutcome s.now (record_of (ok_or result Refusal.Record)) }
{
    let (k, second) = lines::k_at(s, 0)?;
    let (n, third) = lines::n_at(s, second)?;
    let (z, fourth) = lines::ring_at(s, third, b'z')?;
    let (w, end) = lines::ring_at(s, fourth, b'w')?;
    if end < s.len() {
        return None;
    }
    let n = n as u8;
    Some(Triple { k, n, z, w })
}

// The lines of the three counts, from a place on (`Written`).
fn counts(out: &mut [u8], at: usize, t: u64, bytes: u64, steps: u64) -> usize
    requires { at + length (count_lines t bytes steps) ≤ length out.old }
    ensures { Written out.old at (count_lines t bytes steps) out.new result }
{
    let second = text::number_line(out, at, b"t=", t);
    let third = text::number_line(out, second, b"bytes=", bytes);
    text::number_line(out, third, b"steps=", steps)
}

fn answer(refusal: u8, word: &[u8], t: u64, steps: u64, out: &mut [u8]) -> usize
    requires { 0 + length (answer_lines refusal word.now t steps) ≤ length out.old }
    ensures { Written out.old 0 (answer_lines refusal word.now t steps) out.new result }
{
    let second = text::number_line(out, 0, b"refusal=", refusal as u64);
    let third = text::bytes_line(out, second, b"word=", word);
    counts(out, third, t, word.len() as u64, steps)
}

// A number and no enum: it is what is written, and may be any.
// The answer's text from the start of `out`, and its size; when refused the word is empty, and all three counts are 0.
pub fn write(refusal: u8, word: &[u8], t: u64, steps: u64, out: &mut [u8]) -> usize
    requires { (length word.now ≤ enough) × (512 ≤ length out.old) }
    ensures { WriteOutcome refusal word.now t steps out.old out.new result }
{
    if refusal == exact::ACCEPTED {
        return answer(refusal, word, t, steps, out);
    }
    answer(refusal, b"", 0, 0, out)
}
