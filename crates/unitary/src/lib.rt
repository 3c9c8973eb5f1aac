// Triples (z, w, n) over root two to the k in 64 bits, after src/unitary.rs: job 1, reduce and check; job 2, word to matrix.
#![tactic(auto)]

ghost use Rattle.std.specs.Prelude.{◌≡◌, ◌+◌, ◌^◌, ◌≤◌, ◌<◌, T, pos, nat_abs, length, MatchOption};
ghost use Rattle.exact.specs.Meaning.Limits.{largest, deepest};
ghost use Rattle.exact.specs.Meaning.Number.{Sized};
ghost use Rattle.exact.specs.Meaning.Word as Word;
ghost use Rattle.exact.specs.Meaning.Word.{IsLetter, FirstOutside};
ghost use Rattle.exact.specs.Meaning.Triple.{entries};
ghost use Rattle.exact.specs.Meaning.Refusals.{InCoefficients};
ghost use Rattle.exact.specs.Cases.Letters.{letter_of, Inside};
ghost use Rattle.exact.specs.Algebra.Twos.{Multiple};
ghost use Rattle.exact.specs.Matrices.Divided.{Divided};
ghost use Rattle.exact.specs.Matrices.Least.{mod_eight};
ghost use Rattle.exact.specs.Matrices.Triples.{act, identity};
ghost use Rattle.ring.specs.Meaning.{quad};
ghost use Rattle.ring.specs.Number.{Small};
ghost use Rattle.unitary.specs.Meaning.{triple, Answers, ReduceOutcome, as_checked, MatrixOutcome, as_from_gates};
ghost use Rattle.exact.specs.Meaning.Outcome.{Decides};
ghost use Rattle.exact.specs.Meaning.Handed.{checked};
ghost use Rattle.unitary.specs.Checks.{UnitaryAt, CheckOutcome, both_test};
ghost use Rattle.unitary.specs.Acts.{Good, Acted, turned_back};
ghost use Rattle.unitary.specs.Reducing.{Twos, OnceMore};

use exact::Refusal;
use ring::{Triple, ZOmega};

// No sizes stand in the type: H leaves coefficients that need not be small and an exponent over the limit, a triple is handed in with any n, and
// the numbers of a refusal (`none`) are no matrix.
#[derive(Clone, Copy)]
pub struct DOmegaUnitary {
    pub z: ZOmega,
    pub w: ZOmega,
    pub n: u8,
    pub k: u8,
}

// ---- checks

// A coefficient is at most 2^30 in size.
fn within_limit(x: i64) -> bool
    ensures { Decides (nat_abs x ≤ largest) result }
{
    x.unsigned_abs() <= exact::LARGEST as u64
}

fn within_limits(x: ZOmega) -> bool
    ensures { Decides (Sized largest (quad x)) result }
{
    within_limit(x.a) && within_limit(x.b) && within_limit(x.c) && within_limit(x.d)
}

fn power_of_two(k: u8) -> i64
    requires { k ≤ deepest }
    ensures { result ≡ pos (2 ^ k) }
{
    1i64 << k
}

// Both sums, each compared in two halves: the eight squares alone could pass 64 signed bits.
// Not the triple: its k is within the limit here.
fn is_unitary(k: u8, z: ZOmega, w: ZOmega) -> bool
    requires fact_1 { k ≤ deepest }
    requires fact_2 { InCoefficients (quad z) (quad w) }
    ensures { Decides (UnitaryAt k z w) result }
{
    z.squares() == power_of_two(k) - w.squares() && z.crosses() == -w.crosses()
}

// Refusals 3, 4 and 5 in that order.
pub fn check(t: Triple) -> Result<(), Refusal>
    ensures { CheckOutcome t.k t.z t.w (checked result) }
{
    if t.k < 0 || t.k > exact::DEEPEST {
        return Err(Refusal::Exponent);
    }
    if !within_limits(t.z) || !within_limits(t.w) {
        return Err(Refusal::Coefficient);
    }
    if !is_unitary(t.k as u8, t.z, t.w) {
        return Err(Refusal::Unitary);
    }
    Ok(())
}

// ---- triples

impl DOmegaUnitary {
    pub fn identity() -> DOmegaUnitary
        ensures { triple result ≡ identity }
    {
        DOmegaUnitary {
            z: ZOmega::ONE,
            w: ZOmega::ZERO,
            n: 0,
            k: 0,
        }
    }

    // Whether root two divides both z and w.
    fn divisible(self) -> bool
        requires fact_1 { Small self.z }
        requires fact_2 { Small self.w }
        ensures { result ≡ both_test (triple self) }
    {
        self.z.divisible() && self.w.divisible()
    }

    // The exponent one lower, z and w divided by root two.
    pub fn lowered(self) -> DOmegaUnitary
        requires fact_1 { Small self.z }
        requires fact_2 { Small self.w }
        requires fact_3 { 0 < self.k }
        requires fact_4 { T (both_test (triple self)) }
        ensures { Divided 1 (triple self) (triple result) }
    {
        DOmegaUnitary {
            z: self.z.mul_by_inv_sqrt2(),
            w: self.w.mul_by_inv_sqrt2(),
            k: self.k - 1,
            ..self
        }
    }

    // The exponent 2m lower, z and w divided by 2 to the m.
    pub fn halved(self, m: u8) -> DOmegaUnitary
        requires { (Small self.z) × ((Small self.w) × (((m < 64) × (m + m ≤ self.k)) × ((Multiple m (quad self.z)) × (Multiple m (quad self.w))))) }
        ensures { Divided (m + m) (triple self) (triple result) }
    {
        DOmegaUnitary {
            z: self.z.halved(m),
            w: self.w.halved(m),
            k: self.k - m - m,
            ..self
        }
    }

    // How often 2 divides both z and w, and at most k / 2.
    fn twos(self) -> u8
        requires { self.k ≤ 61 }
        ensures { Twos (triple self) result }
    {
        let most = self.k / 2;
        let common = self.z.common() | self.w.common();
        if common == 0 {
            return most;
        }
        ring::ntz(common).min(most)
    }

    // Divided by root two once more, where that is allowed.
    fn lowered_if(self) -> DOmegaUnitary
        requires fact_1 { Small self.z }
        requires fact_2 { Small self.w }
        ensures { OnceMore (triple self) (triple result) }
    {
        if self.k > 0 && self.divisible() {
            self.lowered()
        } else {
            self
        }
    }

    // The reduced triple of the same matrix, n from 0 to 7: the twos that z and w share at once, then root two at most once.
    // The function of this name in synthesis_of_clifford_t does something else: one step of synthesis. So it is in the Rust.
    pub fn reduce_denomexp(self) -> DOmegaUnitary
        requires fact_1 { Small self.z }
        requires fact_2 { Small self.w }
        requires fact_3 { self.k ≤ 61 }
        ensures { Answers (entries (triple self)) (triple result) }
    {
        let t = DOmegaUnitary {
            n: self.n % 8,
            ..self
        };
        if t.k == 0 || !t.divisible() {
            return t;
        }
        let m = t.twos();
        if m == 0 {
            return t.lowered();
        }
        t.halved(m).lowered_if()
    }

    // A function for each letter: each promises its own letter's `act`.
    fn mul_by_t_from_left(self) -> DOmegaUnitary
        requires fact_1 { Small self.w }
        requires fact_2 { self.n < 8 }
        ensures { triple result ≡ mod_eight (act Word.T' (triple self)) }
    {
        let w = self.w.mul_by_omega();
        DOmegaUnitary {
            w,
            n: (self.n + 1) % 8,
            ..self
        }
    }

    // T to the power -m.
    pub fn mul_by_t_inv_power_from_left(self, m: u8) -> DOmegaUnitary
        requires fact_1 { Small self.w }
        requires fact_2 { self.n < 8 }
        requires fact_3 { m < 4 }
        ensures { triple result ≡ mod_eight (turned_back m (triple self)) }
    {
        DOmegaUnitary {
            w: self.w.mul_by_omega_inv_power(m),
            n: (self.n + (8 - m)) % 8,
            ..self
        }
    }

    // docs/DIFFERENCES.md has it by this name; synthesis calls the power.
    pub fn mul_by_t_inv_from_left(self) -> DOmegaUnitary
        requires { (Small self.w) × (self.n < 8) }
        ensures { triple result ≡ mod_eight (turned_back 1 (triple self)) }
    {
        self.mul_by_t_inv_power_from_left(1)
    }

    fn mul_by_s_from_left(self) -> DOmegaUnitary
        requires fact_1 { Small self.w }
        requires fact_2 { self.n < 8 }
        ensures { triple result ≡ mod_eight (act Word.S (triple self)) }
    {
        DOmegaUnitary {
            w: self.w.mul_by_omega().mul_by_omega(),
            n: (self.n + 2) % 8,
            ..self
        }
    }

    fn mul_by_x_from_left(self) -> DOmegaUnitary
        requires { self.n < 8 }
        ensures { triple result ≡ mod_eight (act Word.X (triple self)) }
    {
        DOmegaUnitary {
            z: self.w,
            w: self.z,
            n: (self.n + 4) % 8,
            ..self
        }
    }

    fn mul_by_w_from_left(self) -> DOmegaUnitary
        requires fact_1 { Small self.z }
        requires fact_2 { Small self.w }
        requires fact_3 { self.n < 8 }
        ensures { triple result ≡ mod_eight (act Word.W (triple self)) }
    {
        DOmegaUnitary {
            z: self.z.mul_by_omega(),
            w: self.w.mul_by_omega(),
            n: (self.n + 2) % 8,
            ..self
        }
    }

    // The exponent one higher: it is not reduced here.
    pub fn mul_by_h_from_left(self) -> DOmegaUnitary
        requires fact_1 { Small self.z }
        requires fact_2 { Small self.w }
        requires fact_3 { self.n < 8 }
        requires fact_4 { self.k < 255 }
        ensures { triple result ≡ mod_eight (act Word.H (triple self)) }
    {
        DOmegaUnitary {
            z: self.z.add(self.w),
            w: self.z.sub(self.w),
            n: (self.n + 4) % 8,
            k: self.k + 1,
        }
    }
}

// Job 1: reduce and check a triple.
pub fn reduce(t: Triple) -> Result<DOmegaUnitary, Refusal>
    ensures { ReduceOutcome t.k t.n t.z t.w (as_checked result) }
{
    check(t)?;
    // By its fields: that k fits eight bits is what `check` has just told, and a conversion of its own would ask for it again.
    let as_given = DOmegaUnitary {
        z: t.z,
        w: t.w,
        n: t.n,
        k: t.k as u8,
    };
    Ok(as_given.reduce_denomexp())
}

// ---- words

// A byte and no enum of letters: words are lent as bytes, and a letter is looked at once.
fn is_letter(g: u8) -> bool
    ensures { Decides (IsLetter g) result }
{
    matches!(g, b'I' | b'H' | b'S' | b'X' | b'W' | b'T')
}

// The first place whose byte is no letter.
fn first_outside(word: &[u8]) -> Option<usize>
    ensures { MatchOption result (Inside word.now (length word.now)) (FirstOutside word.now) }
{
    word.iter().position(|g| !is_letter(*g))
}

impl DOmegaUnitary {
    // Only H can change the exponent, by at most one either way.
    fn mul_by_letter_from_left(self, g: u8) -> DOmegaUnitary
        requires fact_1 { Good self }
        requires fact_2 { self.k ≤ deepest }
        ensures { Acted (letter_of g) self result }
    {
        // Each by a `return`: as the value of a `match` the matrix is made in memory, and a letter takes a quarter longer.
        if g == b'H' {
            return self.mul_by_h_from_left().reduce_denomexp();
        }
        if g == b'S' {
            return self.mul_by_s_from_left();
        }
        if g == b'X' {
            return self.mul_by_x_from_left();
        }
        if g == b'W' {
            return self.mul_by_w_from_left();
        }
        if g == b'T' {
            return self.mul_by_t_from_left();
        }
        self
    }
}

// Job 2: word to matrix. The word is read from its right end, and each ending is kept reduced.
pub fn from_gates(word: &[u8]) -> Result<DOmegaUnitary, Refusal>
    ensures { MatrixOutcome word.now (as_from_gates result) }
{
    if word.len() > exact::LONGEST {
        return Err(Refusal::Long);
    }
    if let Some(at) = first_outside(word) {
        return Err(Refusal::Letter(at));
    }
    let mut t = DOmegaUnitary::identity();
    for at in (0..word.len()).rev() {
        t = t.mul_by_letter_from_left(word[at]);
        if t.k > 60 {
            return Err(Refusal::Deep(at));
        }
    }
    Ok(t)
}
