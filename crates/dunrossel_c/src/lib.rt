// The library as C links it: each of its functions under its own name, by the same clauses.
#![tactic(auto)]

ghost use Rattle.dunrossel.specs.Meaning.Exports.{Reduces, Multiplies, Views, Counts, Rotates};
ghost use Rattle.dunrossel.specs.Meaning.Exports.{Writes, Extends, Measures, Synthesises, Converts};
ghost use Rattle.dunrossel.specs.Meaning.Exports.{Multiplied, Inverted, Parted};
ghost use Rattle.dunrossel.specs.Meaning.Bench.{BenchOutcome};
ghost use Rattle.handed.specs.Meaning.{counts_of, steps_of};
ghost use Rattle.normal_form.specs.Meaning.{Normalises, DropsPhase};
ghost use Rattle.circuit.specs.Meaning.{two, three};
ghost use Rattle.qasm.specs.Meaning.{WriteOutcome, ReadOutcome};

#[unsafe(no_mangle)]
pub extern "C" fn dunrossel_reduce(k: i64, n: u8, zw: &[i64; 8], out: &mut [i64; 10]) -> u8
    ensures { Reduces k n zw.now (result, out.new) }
{
    dunrossel::dunrossel_reduce(k, n, zw, out)
}

#[unsafe(no_mangle)]
pub extern "C" fn dunrossel_matrix(word: &[u8], out: &mut [i64; 10], place: &mut u64) -> u8
    ensures { Multiplies word.now (result, (out.new, place.new)) }
{
    dunrossel::dunrossel_matrix(word, out, place)
}

#[unsafe(no_mangle)]
pub extern "C" fn dunrossel_normalise(word: &[u8], buf: &mut [u8], out: &mut [u64; 3]) -> u8
    ensures { Writes Normalises word.now buf.old (result, (out.new, buf.new)) }
{
    dunrossel::dunrossel_normalise(word, buf, out)
}

#[unsafe(no_mangle)]
pub extern "C" fn dunrossel_phase_free(word: &[u8], buf: &mut [u8], out: &mut [u64; 3]) -> u8
    ensures { Writes DropsPhase word.now buf.old (result, (out.new, buf.new)) }
{
    dunrossel::dunrossel_phase_free(word, buf, out)
}

#[unsafe(no_mangle)]
pub extern "C" fn dunrossel_slot_add(
    letter: u8,
    syllables: &mut [u8; 4096],
    rest: &mut [u64; 6],
    length: &mut u64,
) -> u8
    ensures { Extends letter syllables.old rest.old (result, (syllables.new, (rest.new, length.new))) }
{
    dunrossel::dunrossel_slot_add(letter, syllables, rest, length)
}

#[unsafe(no_mangle)]
pub extern "C" fn dunrossel_slot_length(
    syllables: &[u8; 4096],
    rest: &[u64; 6],
    length: &mut u64,
) -> u8
    ensures { Measures syllables.now rest.now (result, length.new) }
{
    dunrossel::dunrossel_slot_length(syllables, rest, length)
}

#[unsafe(no_mangle)]
pub extern "C" fn dunrossel_clifford_product(x: &[i32; 4], y: &[i32; 4], out: &mut [i32; 4])
    ensures { Multiplied x.now y.now out.new }
{
    dunrossel::dunrossel_clifford_product(x, y, out);
}

#[unsafe(no_mangle)]
pub extern "C" fn dunrossel_clifford_inverse(x: &[i32; 4], out: &mut [i32; 4])
    ensures { Inverted x.now out.new }
{
    dunrossel::dunrossel_clifford_inverse(x, out);
}

#[unsafe(no_mangle)]
pub extern "C" fn dunrossel_clifford_coset(x: &[i32; 4], out: &mut [i32; 5])
    ensures { Parted x.now out.new }
{
    dunrossel::dunrossel_clifford_coset(x, out);
}

#[unsafe(no_mangle)]
pub extern "C" fn dunrossel_view(k: i64, n: u8, zw: &[i64; 8], out: &mut [f64; 8]) -> u8
    ensures { Views k n zw.now (result, out.new) }
{
    dunrossel::dunrossel_view(k, n, zw, out)
}

#[unsafe(no_mangle)]
pub extern "C" fn dunrossel_t_count(k: i64, n: u8, zw: &[i64; 8], tees: &mut u64) -> u8
    ensures { Counts k n zw.now (result, tees.new) }
{
    dunrossel::dunrossel_t_count(k, n, zw, tees)
}

#[unsafe(no_mangle)]
pub extern "C" fn dunrossel_rotation(k: i64, n: u8, zw: &[i64; 8], out: &mut [i64; 19]) -> u8
    ensures { Rotates k n zw.now (result, out.new) }
{
    dunrossel::dunrossel_rotation(k, n, zw, out)
}

#[unsafe(no_mangle)]
pub extern "C" fn dunrossel_synthesise(
    k: i64,
    n: u8,
    zw: &[i64; 8],
    buf: &mut [u8],
    out: &mut [u64; 3],
) -> u8
    ensures { Synthesises counts_of k n zw.now buf.old (result, (out.new, buf.new)) }
{
    dunrossel::dunrossel_synthesise(k, n, zw, buf, out)
}

#[unsafe(no_mangle)]
pub extern "C" fn dunrossel_synthesise_steps(
    k: i64,
    n: u8,
    zw: &[i64; 8],
    buf: &mut [u8],
    out: &mut [u64; 4],
) -> u8
    ensures { Synthesises steps_of k n zw.now buf.old (result, (out.new, buf.new)) }
{
    dunrossel::dunrossel_synthesise_steps(k, n, zw, buf, out)
}

#[unsafe(no_mangle)]
pub extern "C" fn dunrossel_qasm2_write(word: &[u8], buf: &mut [u8], out: &mut [u64; 2]) -> u8
    ensures { Converts (WriteOutcome two word.now buf.old) (result, (out.new, buf.new)) }
{
    dunrossel::dunrossel_qasm2_write(word, buf, out)
}

#[unsafe(no_mangle)]
pub extern "C" fn dunrossel_qasm3_write(word: &[u8], buf: &mut [u8], out: &mut [u64; 2]) -> u8
    ensures { Converts (WriteOutcome three word.now buf.old) (result, (out.new, buf.new)) }
{
    dunrossel::dunrossel_qasm3_write(word, buf, out)
}

#[unsafe(no_mangle)]
pub extern "C" fn dunrossel_qasm_read(text: &[u8], buf: &mut [u8], out: &mut [u64; 2]) -> u8
    ensures { Converts (ReadOutcome text.now buf.old) (result, (out.new, buf.new)) }
{
    dunrossel::dunrossel_qasm_read(text, buf, out)
}

#[unsafe(no_mangle)]
pub extern "C" fn dunrossel_bench(text: &[u8], out: &mut [u8; 512]) -> usize
    ensures { BenchOutcome text.now out.old result out.new }
{
    dunrossel::dunrossel_bench(text, out)
}
