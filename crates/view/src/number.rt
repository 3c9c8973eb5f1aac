// Ring numbers: times a power of omega, and the two parts of a number over a power of root two.
ghost use Rattle.std.specs.Prelude.{◌≡◌, ◌≤◌, ◌^◌};
ghost use Rattle.exact.specs.Meaning.Number.{ints, mul_q, omega^};
ghost use Rattle.ring.specs.Meaning.{quad};
ghost use Rattle.view.specs.Meaning.Outcome.{Entry};
ghost use Rattle.view.specs.Size.{size};

use crate::float::over;
use ring::ZOmega;

#[derive(Clone, Copy)]
pub(crate) struct Complex {
    pub re: f64,
    pub im: f64,
}

pub(crate) fn mul_by_omega_power(x: ZOmega, n: u8) -> ZOmega
    requires { size (quad x) ≤ 2 ^ 60 }
    ensures { quad result ≡ mul_q ints (quad x) (omega^ n) }
{
    let mut y = x;
    for _ in 0..n % 8 {
        y = y.mul_by_omega();
    }
    y
}

// The parts over root two to the k.
pub(crate) fn parts(x: ZOmega, k: u8) -> Complex
    requires { (k ≤ 60) × (size (quad x) ≤ 2 ^ k) }
    ensures { Entry k (quad x) result.re result.im }
{
    Complex {
        re: over(k, x.d, x.c - x.a),
        im: over(k, x.b, x.c + x.a),
    }
}
