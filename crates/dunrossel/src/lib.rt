// The library that other programs link: every job, with numbers and slices only. A body for each name that C has: what an answer puts and the
// zeros of a refusal differ in type at each, and one body for all would take both as arguments, with a contract for both.
#![tactic(auto)]

ghost use Rattle.std.specs.Prelude.{◌≡◌, ◌≤◌, length};
ghost use Rattle.exact.specs.Meaning.Limits.{enough};
ghost use Rattle.exact.specs.Meaning.Lent.{lent};
ghost use Rattle.dunrossel.specs.Meaning.Exports.{Reduces, Multiplies, Views, Counts, Rotates};
ghost use Rattle.dunrossel.specs.Meaning.Exports.{Writes, Extends, Measures, Synthesises, Converts};
ghost use Rattle.dunrossel.specs.Meaning.Exports.{Multiplied, Inverted, Parted};
ghost use Rattle.dunrossel.specs.Meaning.Bench.{NumbersOutcome, BenchOutcome};
ghost use Rattle.handed.specs.Meaning.{counts_of, steps_of};
ghost use Rattle.record.specs.Meaning.{numbers, taken_record};
ghost use Rattle.slot.specs.Meaning.{answer_of};
ghost use Rattle.normal_form.specs.Meaning.{Normalises, DropsPhase};
ghost use Rattle.circuit.specs.Meaning.{two, three};
ghost use Rattle.qasm.specs.Meaning.{WriteOutcome, ReadOutcome};

use clifford::Four;
use exact::Refusal;
use qasm::Edition;
use ring::Triple;

pub fn dunrossel_reduce(k: i64, n: u8, zw: &[i64; 8], out: &mut [i64; 10]) -> u8
    ensures { Reduces k n zw.now (result, out.new) }
{
    match unitary::reduce(handed::triple_of(k, n, zw)) {
        Ok(matrix) => {
            handed::put_ten(matrix, out);
            exact::ACCEPTED
        }
        Err(refusal) => {
            *out = [0; 10];
            refusal.number()
        }
    }
}

pub fn dunrossel_matrix(word: &[u8], out: &mut [i64; 10], place: &mut u64) -> u8
    ensures { Multiplies word.now (result, (out.new, place.new)) }
{
    match unitary::from_gates(word) {
        Ok(matrix) => {
            handed::put_ten(matrix, out);
            *place = 0;
            exact::ACCEPTED
        }
        Err(refusal) => {
            *out = [0; 10];
            *place = refusal.place() as u64;
            refusal.number()
        }
    }
}

pub fn dunrossel_normalise(word: &[u8], buf: &mut [u8], out: &mut [u64; 3]) -> u8
    ensures { Writes Normalises word.now buf.old (result, (out.new, buf.new)) }
{
    let answer = normal_form::normalise(word, buf);
    handed::put_counts(answer, out)
}

pub fn dunrossel_phase_free(word: &[u8], buf: &mut [u8], out: &mut [u64; 3]) -> u8
    ensures { Writes DropsPhase word.now buf.old (result, (out.new, buf.new)) }
{
    let answer = normal_form::phase_free(word, buf);
    handed::put_counts(answer, out)
}

// The length, or 0 where it is refused.
fn put_length(answer: Result<u64, Refusal>, length: &mut u64) -> u8
    ensures refusal { result ≡ (answer_of answer).refusal }
    ensures length { length.new ≡ (answer_of answer).length }
{
    match answer {
        Ok(bytes) => {
            *length = bytes;
            exact::ACCEPTED
        }
        Err(refusal) => {
            *length = 0;
            refusal.number()
        }
    }
}

pub fn dunrossel_slot_add(
    letter: u8,
    syllables: &mut [u8; 4096],
    rest: &mut [u64; 6],
    length: &mut u64,
) -> u8
    ensures { Extends letter syllables.old rest.old (result, (syllables.new, (rest.new, length.new))) }
{
    put_length(slot::add(letter, syllables, rest), length)
}

pub fn dunrossel_slot_length(syllables: &[u8; 4096], rest: &[u64; 6], length: &mut u64) -> u8
    ensures { Measures syllables.now rest.now (result, length.new) }
{
    put_length(slot::length(syllables, rest), length)
}

pub fn dunrossel_clifford_product(x: &[i32; 4], y: &[i32; 4], out: &mut [i32; 4])
    ensures { Multiplied x.now y.now out.new }
{
    let answer = clifford::clifford_product(Four::from(*x), Four::from(*y));
    handed::put_clifford(answer, out);
}

pub fn dunrossel_clifford_inverse(x: &[i32; 4], out: &mut [i32; 4])
    ensures { Inverted x.now out.new }
{
    let answer = clifford::clifford_inverse(Four::from(*x));
    handed::put_clifford(answer, out);
}

pub fn dunrossel_clifford_coset(x: &[i32; 4], out: &mut [i32; 5])
    ensures { Parted x.now out.new }
{
    let answer = clifford::clifford_split(Four::from(*x));
    handed::put_coset(answer, out);
}

pub fn dunrossel_view(k: i64, n: u8, zw: &[i64; 8], out: &mut [f64; 8]) -> u8
    ensures { Views k n zw.now (result, out.new) }
{
    match view::view(handed::triple_of(k, n, zw)) {
        Ok(shown) => {
            handed::put_view(shown, out);
            exact::ACCEPTED
        }
        Err(refusal) => {
            *out = [0.0; 8];
            refusal.number()
        }
    }
}

pub fn dunrossel_t_count(k: i64, n: u8, zw: &[i64; 8], tees: &mut u64) -> u8
    ensures { Counts k n zw.now (result, tees.new) }
{
    match rotation::t_count(handed::triple_of(k, n, zw)) {
        Ok(count) => {
            *tees = count as u64;
            exact::ACCEPTED
        }
        Err(refusal) => {
            *tees = 0;
            refusal.number()
        }
    }
}

pub fn dunrossel_rotation(k: i64, n: u8, zw: &[i64; 8], out: &mut [i64; 19]) -> u8
    ensures { Rotates k n zw.now (result, out.new) }
{
    match rotation::rotate(handed::triple_of(k, n, zw)) {
        Ok(turned) => {
            handed::put_rotation(turned, out);
            exact::ACCEPTED
        }
        Err(refusal) => {
            *out = [0; 19];
            refusal.number()
        }
    }
}

pub fn dunrossel_synthesise(k: i64, n: u8, zw: &[i64; 8], buf: &mut [u8], out: &mut [u64; 3]) -> u8
    ensures { Synthesises counts_of k n zw.now buf.old (result, (out.new, buf.new)) }
{
    let t = handed::triple_of(k, n, zw);
    let answer = synthesis_of_clifford_t::synthesise(t, buf);
    handed::put_synthesis(answer, out)
}

pub fn dunrossel_synthesise_steps(
    k: i64,
    n: u8,
    zw: &[i64; 8],
    buf: &mut [u8],
    out: &mut [u64; 4],
) -> u8
    ensures { Synthesises steps_of k n zw.now buf.old (result, (out.new, buf.new)) }
{
    let t = handed::triple_of(k, n, zw);
    let counted = synthesis_of_clifford_t::synthesise(t, buf);
    handed::put_steps(counted, out)
}

pub fn dunrossel_qasm2_write(word: &[u8], buf: &mut [u8], out: &mut [u64; 2]) -> u8
    ensures { Converts (WriteOutcome two word.now buf.old) (result, (out.new, buf.new)) }
{
    let answer = qasm::write(Edition::Two, word, buf);
    handed::put_pair(answer, out)
}

pub fn dunrossel_qasm3_write(word: &[u8], buf: &mut [u8], out: &mut [u64; 2]) -> u8
    ensures { Converts (WriteOutcome three word.now buf.old) (result, (out.new, buf.new)) }
{
    let answer = qasm::write(Edition::Three, word, buf);
    handed::put_pair(answer, out)
}

pub fn dunrossel_qasm_read(text: &[u8], buf: &mut [u8], out: &mut [u64; 2]) -> u8
    ensures { Converts (ReadOutcome text.now buf.old) (result, (out.new, buf.new)) }
{
    let answer = qasm::read(text, buf);
    handed::put_pair(answer, out)
}

// The answer to a right record, by job 4. It stays a call: where the compiler sees whose memory the word is in, it copies it by memcpy, and the
// archive is to need memset alone.
#[inline(never)]
fn answer_record(t: Triple, word: &mut [u8], out: &mut [u8]) -> usize
    requires fact_1 { enough ≤ length word.old }
    requires fact_2 { 512 ≤ length out.old }
    ensures { NumbersOutcome (numbers (taken_record t)) out.old (lent result out.new) }
{
    match synthesis_of_clifford_t::synthesise(t, word) {
        Ok(spelt) => record::write(
            exact::ACCEPTED,
            &word[..spelt.bytes],
            spelt.tees as u64,
            spelt.steps as u64,
            out,
        ),
        Err(refusal) => record::write(refusal.number(), b"", 0, 0, out),
    }
}

pub fn dunrossel_bench(text: &[u8], out: &mut [u8; 512]) -> usize
    ensures { BenchOutcome text.now out.old result out.new }
{
    match record::read(text) {
        Ok(t) => answer_record(t, &mut exact::word_buffer(), out),
        Err(malformed) => record::write(malformed.number(), b"", 0, 0, out),
    }
}
