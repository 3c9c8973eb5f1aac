// Exact synthesis, job 4 (src/synthesis_of_clifford_t.rs in the Rust). specs/ has its mathematics.
#![tactic(auto)]

ghost use Rattle.std.specs.Prelude.{◌≡◌, ◌+◌, ◌≤◌, ◌<◌, length};
ghost use Rattle.exact.specs.Meaning.Word.{bytes};
ghost use Rattle.exact.specs.Algebra.OmegaPower.{which};
ghost use Rattle.ring.specs.Meaning.{quad};
ghost use Rattle.ring.specs.Number.{Small};
ghost use Rattle.unitary.specs.Meaning.{triple};
ghost use Rattle.writing.specs.Put.{Put};
ghost use Rattle.steps.specs.Meaning.{bit_shift, power_by};
ghost use Rattle.steps.specs.Residues.{bit_count, falls_by};
ghost use Rattle.steps.specs.Step.{block, reduction};
ghost use Rattle.steps.specs.Closing.{closing};
ghost use Rattle.steps.specs.Steps.{letters, steps};
ghost use Rattle.synthesis_of_clifford_t.specs.Meaning.{synthesised, SynthesiseOutcome};
ghost use Rattle.synthesis_of_clifford_t.specs.Code.{answer_of};
ghost use Rattle.synthesis_of_clifford_t.specs.Closes.{sign_of, closing_by, Closes};
ghost use Rattle.synthesis_of_clifford_t.specs.Answer.{AnsweredBy};

mod reduced;

use exact::Refusal;
use reduced::Reduced;
use ring::{Triple, ZOmega};
use unitary::DOmegaUnitary;
use writing::Ending;

// What job 4 answers beside the lent bytes: how many of them were written, how many of those are T letters, and in how many steps.
#[derive(Clone, Copy)]
pub struct Spelt {
    pub bytes: usize,
    pub tees: usize,
    pub steps: usize,
}

const BIT_SHIFT: [u8; 16] = [0, 0, 1, 0, 2, 0, 1, 3, 3, 3, 0, 2, 2, 1, 0, 0];

const BIT_COUNT: [u8; 16] = [0, 1, 1, 2, 1, 2, 2, 3, 1, 2, 2, 3, 2, 3, 3, 4];

// A look-up of each table, by a function of its own: each promises what its table is proved to say. A residue is an index, and no type.
fn bit_shift(residue: usize) -> u8
    requires { residue < 16 }
    ensures { result ≡ bit_shift residue }
{
    BIT_SHIFT[residue]
}

fn bit_count(residue: usize) -> u8
    requires { residue < 16 }
    ensures { result ≡ bit_count residue }
{
    BIT_COUNT[residue]
}

// m of a step, 0 to 3, by the residues of z and w.
fn power(z: usize, w: usize) -> u8
    requires { (z < 16) × (w < 16) }
    ensures { result ≡ power_by z w }
{
    let p = bit_shift(z);
    let q = bit_shift(w);
    if q < p { q + 4 - p } else { q - p }
}

// Whether a step lowers k, by the residues of z and w.
fn falls(z: usize, w: usize) -> bool
    requires { (z < 16) × (w < 16) }
    ensures { result ≡ falls_by z w }
{
    bit_count(z) == bit_count(w)
}

// ---- a step

// The step at a reduced unitary triple, m and the next matrix: H·T^-m from the left, then as many divisions by root two as there are. None at k = 0.
// The method of this name (crate unitary) does something else: it finds the least exponent. So it is in the Rust: src/unitary.rs, src/ring/d_omega.rs.
fn reduce_denomexp(from: Reduced) -> Option<(u8, Reduced)>
    ensures { answer_of result ≡ reduction (triple from.matrix) }
{
    let t = from.matrix;
    if t.k == 0 {
        return None;
    }
    let p = t.z.residue() as usize;
    let q = t.w.residue() as usize;
    let m = power(p, q);
    let turned = t.mul_by_t_inv_power_from_left(m);
    let raised = turned.mul_by_h_from_left();
    if falls(p, q) {
        let matrix = raised.halved(1);
        return Some((m, Reduced { matrix }));
    }
    let matrix = raised.lowered();
    Some((m, Reduced { matrix }))
}

// The letters of a step, T^m·H with S for TT, from the start of the free rest.
fn write_block(rest: &mut [u8], m: u8) -> usize
    requires fact_1 { m < 4 }
    requires fact_2 { length (block m) ≤ length rest.old }
    ensures { Put rest.old 0 (bytes (block m)) rest.new result }
{
    let a = writing::put_times(rest, 0, b'T', (m % 2) as usize);
    let b = writing::put_times(rest, a, b'S', (m / 2) as usize);
    writing::put_letter(rest, b, b'H')
}

// ---- the end

// What closes a word at k = 0: T or none, and a tail of X, S and W.
#[derive(Clone, Copy)]
struct Closing {
    tees: usize,
    tail: Ending,
}

// A choice by a function of its own, as `sign_of` is.
fn by_sign(x: i64, i: u8, j: u8) -> u8
    ensures { result ≡ sign_of x i j }
{
    if x < 0 { j } else { i }
}

// Which power of omega it is.
fn power_of_omega(x: ZOmega) -> u8
    requires { Small x }
    ensures { result ≡ which (quad x) }
{
    if ring::odd(x.d) {
        return by_sign(x.d, 0, 4);
    }
    if ring::odd(x.c) {
        return by_sign(x.c, 1, 5);
    }
    if ring::odd(x.b) {
        return by_sign(x.b, 2, 6);
    }
    by_sign(x.a, 3, 7)
}

// T where n is odd, X x times, W m times: what is left of n, two for each S.
fn closing_by(n: u8, x: u8, m: u8) -> Closing
    requires fact_1 { n < 8 }
    requires fact_2 { x ≤ 1 }
    requires fact_3 { m < 8 }
    ensures { result ≡ closing_by n x m }
{
    let lead = n % 2;
    let s = (n + 4 * x + 16 - (lead + 2 * m)) % 8 / 2;
    let tail = Ending {
        first: 0,
        h: 0,
        i: 0,
        x: x as usize,
        s: s as usize,
        w: m as usize,
    };
    Closing {
        tees: lead as usize,
        tail,
    }
}

// At k = 0 the eight squares sum to 1, so z is 0 where its residue is.
fn closing_of(last: Reduced) -> Closing
    requires { last.matrix.k ≡ 0 }
    ensures { Closes (triple last.matrix) result }
{
    let t = last.matrix;
    if t.z.residue() == 0 {
        let u = t.w.mul_by_omega_inv_power(t.n % 2);
        return closing_by(t.n, 1, power_of_omega(u));
    }
    closing_by(t.n, 0, power_of_omega(t.z))
}

// The closing letters, from the start of the free rest.
fn write_closing(rest: &mut [u8], last: Reduced) -> usize
    requires at_zero { last.matrix.k ≡ 0 }
    requires room { length (closing (triple last.matrix)) ≤ length rest.old }
    ensures { Put rest.old 0 (bytes (closing (triple last.matrix))) rest.new result }
{
    let c = closing_of(last);
    let a = writing::put_times(rest, 0, b'T', c.tees);
    writing::put_ending(rest, a, c.tail)
}

// ---- job 4

// How many letters were put, and in how many steps.
#[derive(Clone, Copy)]
struct Decomposed {
    len: usize,
    steps: usize,
}

// The letters that a reduced triple is taken apart into, from the start of a working buffer.
fn decompose_domega_unitary(t: Reduced, work: &mut [u8]) -> Decomposed
    requires { 372 ≤ length work.old }
    ensures { Put work.old 0 (bytes (letters (triple t.matrix))) work.new result.len × (result.steps ≡ steps (triple t.matrix)) }
{
    let mut u = t;
    let mut len: usize = 0;
    let mut steps: usize = 0;
    // No `for`: it ends where there is no step. By `let .. else`, as docs/SCOPE.md has it (Forms).
    loop {
        let Some((m, next)) = reduce_denomexp(u) else {
            break;
        };
        len += write_block(&mut work[len..], m);
        steps += 1;
        u = next;
    }
    len += write_closing(&mut work[len..], u);
    Decomposed { len, steps }
}

// The normal word of a reduced triple, and the steps to it.
fn answer(t: Reduced, buf: &mut [u8]) -> Result<Spelt, Refusal>
    ensures { AnsweredBy (triple t.matrix) buf.old (synthesised result) buf.new }
{
    let mut work = [0u8; 384];
    let d = decompose_domega_unitary(t, &mut work);
    let r = normal_form::normalise(&work[..d.len], buf)?;
    Ok(Spelt {
        bytes: r.bytes,
        tees: r.tees,
        steps: d.steps,
    })
}

// Job 4: the normal word whose matrix is the triple's, and the steps to it. An unreduced triple is reduced first.
pub fn synthesise(t: Triple, buf: &mut [u8]) -> Result<Spelt, Refusal>
    ensures { SynthesiseOutcome t.k t.n t.z t.w buf.old (synthesised result) buf.new }
{
    unitary::check(t)?;
    // By its fields, as in `unitary::reduce`.
    let given = DOmegaUnitary {
        z: t.z,
        w: t.w,
        n: t.n,
        k: t.k as u8,
    };
    let matrix = given.reduce_denomexp();
    answer(Reduced { matrix }, buf)
}
