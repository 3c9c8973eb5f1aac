// What the exports are handed and hand back: numbers taken from arrays, and answers put into them.
// By functions and no From: neither the arrays nor the answers are types of this crate.
#![tactic(auto)]

ghost use Rattle.std.specs.Prelude.{◌≡◌};
ghost use Rattle.handed.specs.Meaning.{triple_of, ten, eight_of, nineteen_of, counts, counts_of, steps_of, counts_in, four_of, five_of};
ghost use Rattle.normal_form.specs.Meaning.{written};
ghost use Rattle.qasm.specs.Meaning.{written as converted};
ghost use Rattle.synthesis_of_clifford_t.specs.Meaning.{synthesised};

use clifford::{Clifford, Coset};
use exact::Refusal;
use normal_form::Counts;
use ring::{Triple, ZOmega};
use rotation::Rotation;
use synthesis_of_clifford_t::Spelt;
use unitary::DOmegaUnitary;
use view::matrix::View;

pub fn triple_of(k: i64, n: u8, zw: &[i64; 8]) -> Triple
    ensures { result ≡ triple_of k n zw.now }
{
    Triple {
        k,
        n,
        z: ZOmega::new(zw[0], zw[1], zw[2], zw[3]),
        w: ZOmega::new(zw[4], zw[5], zw[6], zw[7]),
    }
}

pub fn put_ten(t: DOmegaUnitary, out: &mut [i64; 10])
    ensures { out.new ≡ ten t }
{
    *out = [
        i64::from(t.k),
        i64::from(t.n),
        t.z.a,
        t.z.b,
        t.z.c,
        t.z.d,
        t.w.a,
        t.w.b,
        t.w.c,
        t.w.d,
    ];
}

// The place and the counts are put, and the refusal's number is returned. Its twins below put other counts into arrays of other sizes, which C lends.
pub fn put_counts(answer: Result<Counts, Refusal>, out: &mut [u64; 3]) -> u8
    ensures refusal { result ≡ (written answer).refusal }
    ensures counts { out.new ≡ counts (written answer) }
{
    match answer {
        Ok(c) => {
            *out = [0, c.bytes as u64, c.tees as u64];
            exact::ACCEPTED
        }
        Err(refusal) => {
            *out = [refusal.place() as u64, 0, 0];
            refusal.number()
        }
    }
}

pub fn put_clifford(q: Clifford, out: &mut [i32; 4])
    ensures { out.new ≡ four_of q }
{
    *out = [
        i32::from(q.a),
        i32::from(q.b),
        i32::from(q.c),
        i32::from(q.d),
    ];
}

pub fn put_coset(split: Coset, out: &mut [i32; 5])
    ensures { out.new ≡ five_of split }
{
    let number = u8::from(split.axis);
    let q = split.rest;
    *out = [
        i32::from(number),
        i32::from(q.a),
        i32::from(q.b),
        i32::from(q.c),
        i32::from(q.d),
    ];
}

pub fn put_view(v: View, out: &mut [f64; 8])
    ensures { out.new ≡ eight_of v }
{
    *out = [
        v.re00, v.im00, v.re01, v.im01, v.re10, v.im10, v.re11, v.im11,
    ];
}

// Row by row: a row has a part of each column.
pub fn put_rotation(r: Rotation, out: &mut [i64; 19])
    ensures { out.new ≡ nineteen_of r }
{
    let Rotation { x, y, z, e } = r;
    *out = [
        i64::from(e),
        x.x.p,
        x.x.q,
        y.x.p,
        y.x.q,
        z.x.p,
        z.x.q,
        x.y.p,
        x.y.q,
        y.y.p,
        y.y.q,
        z.y.p,
        z.y.q,
        x.z.p,
        x.z.q,
        y.z.p,
        y.z.q,
        z.z.p,
        z.z.q,
    ];
}

pub fn put_synthesis(answer: Result<Spelt, Refusal>, out: &mut [u64; 3]) -> u8
    ensures refusal { result ≡ (synthesised answer).refusal }
    ensures counts { out.new ≡ counts_of (synthesised answer) }
{
    match answer {
        Ok(spelt) => {
            *out = [0, spelt.bytes as u64, spelt.tees as u64];
            exact::ACCEPTED
        }
        Err(refusal) => {
            *out = [0; 3];
            refusal.number()
        }
    }
}

pub fn put_steps(answer: Result<Spelt, Refusal>, out: &mut [u64; 4]) -> u8
    ensures refusal { result ≡ (synthesised answer).refusal }
    ensures steps { out.new ≡ steps_of (synthesised answer) }
{
    match answer {
        Ok(spelt) => {
            *out = [0, spelt.bytes as u64, spelt.tees as u64, spelt.steps as u64];
            exact::ACCEPTED
        }
        Err(refusal) => {
            *out = [0; 4];
            refusal.number()
        }
    }
}

// A circuit has no T letters to count.
pub fn put_pair(answer: Result<usize, Refusal>, out: &mut [u64; 2]) -> u8
    ensures refusal { result ≡ (converted answer).refusal }
    ensures pair { out.new ≡ counts_in (converted answer) }
{
    match answer {
        Ok(bytes) => {
            *out = [0, bytes as u64];
            exact::ACCEPTED
        }
        Err(refusal) => {
            *out = [refusal.place() as u64, 0];
            refusal.number()
        }
    }
}
