// Ring numbers a·omega^3 + b·omega^2 + c·omega + d with 64-bit coefficients, after src/ring in the Rust.
#![tactic(auto)]

mod display;

ghost use Rattle.std.specs.Prelude.{◌≡◌, ◌+◌, ◌^◌, ◌-◌, ◌≤◌, ◌<◌, T, nat_abs};
ghost use Rattle.exact.specs.Meaning.Number.{Sized};
ghost use Rattle.exact.specs.Meaning.Number.{ints, add_q, neg_q, mul_q, conj_q, omega', omega^, root2, root2^, bit, residue};
ghost use Rattle.exact.specs.Meaning.Number as Meaning;
ghost use Rattle.exact.specs.Meaning.Triple.{squares, crosses};
ghost use Rattle.exact.specs.Whole.Twos.{Zeros};
ghost use Rattle.exact.specs.Algebra.Over.{divides};
ghost use Rattle.exact.specs.Algebra.Twos.{Multiple, Shares};
ghost use Rattle.ring.specs.Meaning.{quad};
ghost use Rattle.ring.specs.Number.{Small};

// No size stands in the type: job 1 is handed any coefficients, and a sum of two small numbers need not be small.
#[derive(Clone, Copy)]
pub struct ZOmega {
    pub a: i64,
    pub b: i64,
    pub c: i64,
    pub d: i64,
}

// A triple (z, w, n) with exponent k, as it is handed in: any numbers.
#[derive(Clone, Copy)]
pub struct Triple {
    pub k: i64,
    pub n: u8,
    pub z: ZOmega,
    pub w: ZOmega,
}

// Of either sign, by the lowest bit.
pub fn odd(x: i64) -> bool
    ensures { result ≡ Meaning.odd x }
{
    x & 1 != 0
}

// How often 2 divides it, and 0 for 0.
pub fn ntz(x: i64) -> u8
    ensures { Zeros x result }
{
    let size = x.unsigned_abs();
    if size == 0 {
        return 0;
    }
    size.trailing_zeros() as u8
}

// The parity as a number.
fn parity(x: i64) -> u8
    ensures { (result ≡ bit (Meaning.odd x)) × (result ≤ 1) }
{
    u8::from(odd(x))
}

impl ZOmega {
    pub const ZERO: ZOmega = ZOmega {
        a: 0,
        b: 0,
        c: 0,
        d: 0,
    };

    pub const ONE: ZOmega = ZOmega {
        a: 0,
        b: 0,
        c: 0,
        d: 1,
    };

    pub fn new(a: i64, b: i64, c: i64, d: i64) -> ZOmega
        ensures { result ≡ record { a = a; b = b; c = c; d = d } }
    {
        ZOmega { a, b, c, d }
    }

    pub fn add(self, o: ZOmega) -> ZOmega
        requires fact_1 { Small self }
        requires fact_2 { Small o }
        ensures { quad result ≡ add_q ints (quad self) (quad o) }
    {
        ZOmega {
            a: self.a + o.a,
            b: self.b + o.b,
            c: self.c + o.c,
            d: self.d + o.d,
        }
    }

    pub fn sub(self, o: ZOmega) -> ZOmega
        requires fact_1 { Small self }
        requires fact_2 { Small o }
        ensures { quad result ≡ add_q ints (quad self) (neg_q ints (quad o)) }
    {
        ZOmega {
            a: self.a - o.a,
            b: self.b - o.b,
            c: self.c - o.c,
            d: self.d - o.d,
        }
    }

    pub fn mul_by_omega(self) -> ZOmega
        requires { Small self }
        ensures { quad result ≡ mul_q ints (omega' ints) (quad self) }
    {
        ZOmega {
            a: self.b,
            b: self.c,
            c: self.d,
            d: -self.a,
        }
    }

    pub fn conj(self) -> ZOmega
        requires { Small self }
        ensures { quad result ≡ conj_q ints (quad self) }
    {
        ZOmega {
            a: -self.c,
            b: -self.b,
            c: -self.a,
            d: self.d,
        }
    }

    // Multiplied out: coefficients of at most 2^30 give such of at most 2^62.
    pub fn mul(self, o: ZOmega) -> ZOmega
        requires fact_1 { Sized (2 ^ 30) (quad self) }
        requires fact_2 { Sized (2 ^ 30) (quad o) }
        ensures { quad result ≡ mul_q ints (quad self) (quad o) }
    {
        ZOmega {
            a: self.a * o.d + self.b * o.c + self.c * o.b + self.d * o.a,
            b: self.b * o.d + self.c * o.c + self.d * o.b - self.a * o.a,
            c: self.c * o.d + self.d * o.c - (self.a * o.b + self.b * o.a),
            d: self.d * o.d - (self.a * o.c + self.b * o.b + self.c * o.a),
        }
    }

    // The squares' sum, a number of at most 64 bits where the coefficients are at most 2^30.
    pub fn squares(self) -> i64
        requires { Sized (2 ^ 30) (quad self) }
        ensures { result ≡ squares ints (quad self) }
    {
        self.a * self.a + self.b * self.b + self.c * self.c + self.d * self.d
    }

    pub fn crosses(self) -> i64
        requires { Sized (2 ^ 30) (quad self) }
        ensures { result ≡ crosses ints (quad self) }
    {
        self.a * self.b + self.b * self.c + self.c * self.d - self.d * self.a
    }

    // Whether root two divides it.
    pub fn divisible(self) -> bool
        requires { Small self }
        ensures { result ≡ divides (quad self) }
    {
        !odd(self.b + self.d) && !odd(self.c + self.a)
    }

    // Its trailing zeros are those that the four coefficients have in common.
    pub fn common(self) -> i64
        ensures { Shares (quad self) result }
    {
        self.a | self.b | self.c | self.d
    }

    // Divided by root two.
    pub fn mul_by_inv_sqrt2(self) -> ZOmega
        requires fact_1 { Small self }
        requires fact_2 { T (divides (quad self)) }
        ensures { mul_q ints (root2 ints) (quad result) ≡ quad self }
    {
        ZOmega {
            a: (self.b - self.d) >> 1,
            b: (self.c + self.a) >> 1,
            c: (self.b + self.d) >> 1,
            d: (self.c - self.a) >> 1,
        }
    }

    // Divided by 2 to the m, each coefficient shifted right.
    pub fn halved(self, m: u8) -> ZOmega
        requires fact_1 { Small self }
        requires fact_2 { m < 64 }
        requires fact_3 { Multiple m (quad self) }
        ensures { mul_q ints (root2^ (m + m)) (quad result) ≡ quad self }
    {
        ZOmega {
            a: self.a >> m,
            b: self.b >> m,
            c: self.c >> m,
            d: self.d >> m,
        }
    }

    pub fn neg(self) -> ZOmega
        requires { Small self }
        ensures { quad result ≡ neg_q ints (quad self) }
    {
        ZOmega {
            a: -self.a,
            b: -self.b,
            c: -self.c,
            d: -self.d,
        }
    }

    // The four parities, a in the highest bit.
    pub fn residue(self) -> u8
        requires { Small self }
        ensures { result ≡ residue (quad self) }
    {
        parity(self.a) * 8 + parity(self.b) * 4 + parity(self.c) * 2 + parity(self.d)
    }

    fn mul_by_omega_inv(self) -> ZOmega
        requires { Small self }
        ensures { quad result ≡ mul_q ints (omega^ 7) (quad self) }
    {
        ZOmega {
            a: -self.d,
            b: self.a,
            c: self.b,
            d: self.c,
        }
    }

    // By omega to the power -m. Below 4 is asked for and is no type: m is a count of turns and no more.
    pub fn mul_by_omega_inv_power(self, m: u8) -> ZOmega
        requires fact_1 { Small self }
        requires fact_2 { m < 4 }
        ensures { quad result ≡ mul_q ints (omega^ (8 - m)) (quad self) }
    {
        let mut turned = self;
        for _ in 0..m {
            turned = turned.mul_by_omega_inv();
        }
        turned
    }
}
