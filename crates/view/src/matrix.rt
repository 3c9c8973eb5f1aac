// The entries of a unitary triple's matrix, rows [z, -w*·omega^n] and [w, z*·omega^n] over root two to the k.
ghost use Rattle.std.specs.Prelude.{◌≤◌};
ghost use Rattle.exact.specs.Meaning.Triple.{Unitary};
ghost use Rattle.unitary.specs.Meaning.{triple};
ghost use Rattle.view.specs.Meaning.Outcome.{Viewed};

use crate::number::{mul_by_omega_power, parts};
use unitary::DOmegaUnitary;

// Row by row: `re` and `im` with i and j are the real and the imaginary part of the entry in row i and column j.
#[derive(Clone, Copy, Default)]
pub struct View {
    pub re00: f64,
    pub im00: f64,
    pub re01: f64,
    pub im01: f64,
    pub re10: f64,
    pub im10: f64,
    pub re11: f64,
    pub im11: f64,
}

pub(crate) fn entries(t: DOmegaUnitary) -> View
    requires { (t.k ≤ 60) × Unitary (triple t) }
    ensures { Viewed (triple t) result }
{
    let zu = mul_by_omega_power(t.z.conj(), t.n);
    let wu = mul_by_omega_power(t.w.conj(), t.n);
    let p = parts(t.z, t.k);
    let q = parts(wu.neg(), t.k);
    let r = parts(t.w, t.k);
    let s = parts(zu, t.k);
    View {
        re00: p.re,
        im00: p.im,
        re01: q.re,
        im01: q.im,
        re10: r.re,
        im10: r.im,
        re11: s.re,
        im11: s.im,
    }
}
