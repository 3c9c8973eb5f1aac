// A job on a payload, and its answer in text.
use crate::slots;
use clifford::{Clifford, Four};
use exact::Refusal;
use normal_form::Counts;
use qasm::Edition;
use ring::{Triple, ZOmega};
use root_two::Root;
use rotation::Rotation;
use shown::{numbers, text};
use std::io;
use std::io::Write;
use unitary::DOmegaUnitary;

fn ring<W: Write>(out: &mut W, x: ZOmega) -> io::Result<()> {
    numbers(out, &[x.a, x.b, x.c, x.d])
}

fn matrix<W: Write>(out: &mut W, t: DOmegaUnitary) -> io::Result<()> {
    numbers(out, &[t.k, t.n])?;
    ring(out, t.z)?;
    ring(out, t.w)
}

fn reduce<W: Write>(out: &mut W, t: Triple) -> io::Result<()> {
    match unitary::reduce(t) {
        Ok(reduced) => {
            write!(out, "0")?;
            matrix(out, reduced)
        }
        Err(refusal) => {
            write!(out, "{}", refusal.number())?;
            numbers(out, &[0; 10])
        }
    }
}

fn from_gates<W: Write>(out: &mut W, word: &[u8]) -> io::Result<()> {
    match unitary::from_gates(word) {
        Ok(product) => {
            write!(out, "0 0")?;
            matrix(out, product)
        }
        Err(refusal) => {
            write!(out, "{} {}", refusal.number(), refusal.place())?;
            numbers(out, &[0; 10])
        }
    }
}

// The whole lent buffer stands behind the counts.
fn written<W: Write>(out: &mut W, answer: Result<Counts, Refusal>, lent: &[u8]) -> io::Result<()> {
    match answer {
        Ok(counts) => write!(out, "0 0 {} {} ", counts.bytes, counts.tees)?,
        Err(refusal) => write!(out, "{} {} 0 0 ", refusal.number(), refusal.place())?,
    }
    text(out, lent)
}

fn circuit<W: Write>(out: &mut W, answer: Result<usize, Refusal>, lent: &[u8]) -> io::Result<()> {
    match answer {
        Ok(bytes) => write!(out, "0 0 {bytes} ")?,
        Err(refusal) => write!(out, "{} {} 0 ", refusal.number(), refusal.place())?,
    }
    text(out, lent)
}

fn write_circuit<W: Write>(
    out: &mut W,
    edition: Edition,
    word: &[u8],
    lent: &mut [u8],
) -> io::Result<()> {
    let answer = qasm::write(edition, word, lent);
    circuit(out, answer, lent)
}

fn read_circuit<W: Write>(out: &mut W, payload: &[u8], lent: &mut [u8]) -> io::Result<()> {
    let answer = qasm::read(payload, lent);
    circuit(out, answer, lent)
}

fn normalise<W: Write>(out: &mut W, word: &[u8], lent: &mut [u8]) -> io::Result<()> {
    let answer = normal_form::normalise(word, lent);
    written(out, answer, lent)
}

fn phase_free<W: Write>(out: &mut W, word: &[u8], lent: &mut [u8]) -> io::Result<()> {
    let answer = normal_form::phase_free(word, lent);
    written(out, answer, lent)
}

fn synthesise<W: Write>(out: &mut W, t: Triple, lent: &mut [u8]) -> io::Result<()> {
    match synthesis_of_clifford_t::synthesise(t, lent) {
        Ok(spelt) => write!(out, "0 0 {} {} {} ", spelt.bytes, spelt.tees, spelt.steps)?,
        Err(refusal) => write!(out, "{} 0 0 0 0 ", refusal.number())?,
    }
    text(out, lent)
}

fn t_count<W: Write>(out: &mut W, t: Triple) -> io::Result<()> {
    match rotation::t_count(t) {
        Ok(tees) => write!(out, "0 {tees}"),
        Err(refusal) => write!(out, "{} 0", refusal.number()),
    }
}

fn row<W: Write>(out: &mut W, x: Root, y: Root, z: Root) -> io::Result<()> {
    numbers(out, &[x.p, x.q, y.p, y.q, z.p, z.q])
}

// A Rotation has columns.
fn rows<W: Write>(out: &mut W, r: Rotation) -> io::Result<()> {
    row(out, r.x.x, r.y.x, r.z.x)?;
    row(out, r.x.y, r.y.y, r.z.y)?;
    row(out, r.x.z, r.y.z, r.z.z)
}

fn rotate<W: Write>(out: &mut W, t: Triple) -> io::Result<()> {
    match rotation::rotate(t) {
        Ok(rotation) => {
            write!(out, "0 {}", rotation.e)?;
            rows(out, rotation)
        }
        Err(refusal) => {
            write!(out, "{}", refusal.number())?;
            numbers(out, &[0; 19])
        }
    }
}

// The oracle asks for Cliffords of i32 only.
fn four_of(x: ZOmega) -> Four {
    Four::from([x.a, x.b, x.c, x.d].map(|c| i32::try_from(c).unwrap_or(0)))
}

fn parts<W: Write>(out: &mut W, q: Clifford) -> io::Result<()> {
    write!(out, "{} {} {} {}", q.a, q.b, q.c, q.d)
}

fn product<W: Write>(out: &mut W, t: Triple) -> io::Result<()> {
    parts(out, clifford::clifford_product(four_of(t.z), four_of(t.w)))
}

fn inverse<W: Write>(out: &mut W, t: Triple) -> io::Result<()> {
    parts(out, clifford::clifford_inverse(four_of(t.z)))
}

fn coset<W: Write>(out: &mut W, t: Triple) -> io::Result<()> {
    let split = clifford::clifford_split(four_of(t.z));
    write!(out, "{} ", u8::from(split.axis))?;
    parts(out, split.rest)
}

// The job of a bench record's triple.
fn of_record<W: Write, F: FnOnce(&mut W, Triple) -> io::Result<()>>(
    out: &mut W,
    payload: &[u8],
    job: F,
) -> io::Result<()>
    requires { F.IsAlwaysCallable job }
{
    match record::read(payload) {
        Ok(t) => job(out, t),
        Err(_) => text(out, b"no record"),
    }
}

// The payload of 2, 3, 5, Q and G is a word, that of R a circuit's text, that of S and L a slot, that of the others a bench record.
// The byte is matched here alone: an enum would be a second list of the jobs.
pub fn answer<W: Write>(out: &mut W, job: u8, payload: &[u8], lent: &mut [u8]) -> io::Result<()> {
    match job {
        b'1' => of_record(out, payload, reduce),
        b'2' => from_gates(out, payload),
        b'3' => normalise(out, payload, lent),
        b'4' => of_record(out, payload, |out, t| synthesise(out, t, lent)),
        b'5' => phase_free(out, payload, lent),
        b'T' => of_record(out, payload, t_count),
        b'A' => of_record(out, payload, rotate),
        b'P' => of_record(out, payload, product),
        b'I' => of_record(out, payload, inverse),
        b'C' => of_record(out, payload, coset),
        b'Q' => write_circuit(out, Edition::Two, payload, lent),
        b'G' => write_circuit(out, Edition::Three, payload, lent),
        b'R' => read_circuit(out, payload, lent),
        b'S' => slots::answer(out, payload, lent.len(), slots::add),
        b'L' => slots::answer(out, payload, lent.len(), slots::length),
        _ => of_record(out, payload, |out, _| text(out, b"no job")),
    }
}
