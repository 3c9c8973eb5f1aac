// OpenQASM 2.0 and 3.0 on one qubit: a word's circuit written, and a circuit's letters read.
#![tactic(auto)]

ghost use Rattle.std.specs.Prelude.{◌≡◌, ◌≤◌, length};
ghost use Rattle.qasm.specs.Meaning.{written, WriteOutcome, ReadOutcome};
ghost use Rattle.circuit_writer.specs.Writing.{Measures, PhaseIs};
ghost use Rattle.qasm.specs.WriterWays.{PutsCircuit};
ghost use Rattle.circuit.specs.Meaning.{edition_of};
ghost use Rattle.circuit.specs.Lines.{OfCircuit};

pub use circuit::Edition;
use circuit_reader::Circuit;
use circuit_writer::Measured;
use exact::Refusal;

// A header and the lines of a word, if there is room for both: their bytes are known before one is written.
fn put_circuit(head: &[u8], lines: usize, word: &[u8], buf: &mut [u8]) -> Result<usize, Refusal>
    requires fact_1 { Measures word.now lines }
    requires fact_2 { (length word.now ≤ 4096) × (length head.now ≤ 64) }
    ensures { PutsCircuit head.now word.now buf.old (written result) buf.new }
{
    let n = head.len() + lines;
    if n > buf.len() {
        return Err(Refusal::Room);
    }
    let at = lent::put(buf, 0, head);
    circuit_writer::put_lines(buf, at, word);
    Ok(n)
}

// A word that has been measured, in an edition.
fn write_word(
    edition: Edition,
    measured: Measured,
    word: &[u8],
    buf: &mut [u8],
) -> Result<usize, Refusal>
    requires fact_1 { length word.now ≤ 4096 }
    requires fact_2 { Measures word.now measured.lines }
    requires fact_3 { PhaseIs word.now measured.phase }
    ensures { WriteOutcome (edition_of edition) word.now buf.old (written result) buf.new }
{
    if !edition.has_phase() && measured.phase < word.len() {
        return Err(Refusal::Phase(measured.phase));
    }
    put_circuit(edition.header(), measured.lines, word, buf)
}

// The circuit of a word's letters, the rightmost first, in an edition: its bytes.
pub fn write(edition: Edition, word: &[u8], buf: &mut [u8]) -> Result<usize, Refusal>
    ensures { WriteOutcome (edition_of edition) word.now buf.old (written result) buf.new }
{
    if word.len() > exact::LONGEST {
        return Err(Refusal::Long);
    }
    let measured = circuit_writer::measure(word)?;
    write_word(edition, measured, word, buf)
}

// The letters of a right text, if they are not too many and there is room.
fn read_circuit(text: &[u8], circuit: Circuit, buf: &mut [u8]) -> Result<usize, Refusal>
    requires { OfCircuit text.now circuit.start circuit.letters }
    ensures { ReadOutcome text.now buf.old (written result) buf.new }
{
    let Circuit { start, letters } = circuit;
    if letters > exact::LONGEST {
        return Err(Refusal::Long);
    }
    if letters > buf.len() {
        return Err(Refusal::Room);
    }
    circuit_letters::put_letters(text, start, letters, buf);
    Ok(letters)
}

// The letters of a circuit of either edition, its first statement the rightmost: how many they are.
pub fn read(text: &[u8], buf: &mut [u8]) -> Result<usize, Refusal>
    ensures { ReadOutcome text.now buf.old (written result) buf.new }
{
    let circuit = circuit_reader::walk(text)?;
    read_circuit(text, circuit, buf)
}
