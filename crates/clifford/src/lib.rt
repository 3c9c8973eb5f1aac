// Job 6: Cliffords. (a,b,c,d) is E^a X^b S^c omega^d; product, inverse, coset split and the passing of a T, by three tables and the moves of X and S past E.
#![tactic(auto)]

ghost use Rattle.std.specs.Prelude.{◌≡◌, ◌<◌};
ghost use Rattle.clifford.specs.Meaning.{axis_number, Ranged, listed, reduced, Product, Inverse, Split};
ghost use Rattle.clifford.specs.Arguments.{Reduced};
ghost use Rattle.clifford.specs.Tables.{Row2, RowInv, RowT};
ghost use Rattle.clifford.specs.Moves.{move_at, Past, letter_at, moved, Preceded};
ghost use Rattle.clifford.specs.Cliffords.{reduce, mul_c, inv_c, split_c, tconj_c};

#[derive(Clone, Copy, PartialEq, Eq, Debug)]
pub enum Axis {
    I,
    H,
    SH,
}

// I is 0, H is 1 and SH is 2.
impl From<Axis> for u8 {
    ghost from_gives = { λ axis n. n ≡ axis_number axis };

    fn from(axis: Axis) -> u8 {
        axis as u8
    }
}

// That the numbers are in their ranges is no field of it: the definitions (`reduced`, `mul_c`, `split_c`) make one of any numbers.
#[derive(Clone, Copy, PartialEq, Eq)]
pub struct Clifford {
    pub a: u8,
    pub b: u8,
    pub c: u8,
    pub d: u8,
}

// An axis times what is left: a Clifford taken apart, or what a T leaves behind itself.
#[derive(Clone, Copy, PartialEq, Eq)]
pub struct Coset {
    pub axis: Axis,
    pub rest: Clifford,
}

// Four numbers as they are handed in, in their ranges or not.
#[derive(Clone, Copy)]
pub struct Four {
    pub a: i32,
    pub b: i32,
    pub c: i32,
    pub d: i32,
}

impl From<[i32; 4]> for Four {
    ghost from_gives = { λ x r. r ≡ listed x };

    fn from(x: [i32; 4]) -> Four {
        let [a, b, c, d] = x;
        Four { a, b, c, d }
    }
}

const CLIFFORD_H: Clifford = Clifford {
    a: 1,
    b: 0,
    c: 1,
    d: 5,
};

const CLIFFORD_SH: Clifford = Clifford {
    a: 2,
    b: 0,
    c: 0,
    d: 3,
};

// S^c X^b is X^b S^c' omega^d', at 2c + b.
#[derive(Clone, Copy)]
struct Conj2 {
    c: u8,
    d: u8,
}

// A letter that is moved past E.
#[derive(Clone, Copy)]
enum Passing {
    X,
    S,
}

// E^a X^b T is axis T X^b S^c' omega^d', at 2a + b.
#[derive(Clone, Copy)]
struct Tconj {
    axis: Axis,
    c: u8,
    d: u8,
}

// S^c X^b past one another, at 2c + b.
const CONJ2_TABLE: [Conj2; 8] = [
    Conj2 { c: 0, d: 0 },
    Conj2 { c: 0, d: 0 },
    Conj2 { c: 1, d: 0 },
    Conj2 { c: 3, d: 2 },
    Conj2 { c: 2, d: 0 },
    Conj2 { c: 2, d: 4 },
    Conj2 { c: 3, d: 0 },
    Conj2 { c: 1, d: 6 },
];

// X E^a at a, and S E^a at 3 + a, as E^a' X^b' S^c' omega^d'.
const MOVES: [Clifford; 6] = [
    Clifford {
        a: 0,
        b: 1,
        c: 0,
        d: 0,
    },
    Clifford {
        a: 1,
        b: 0,
        c: 2,
        d: 0,
    },
    Clifford {
        a: 2,
        b: 1,
        c: 2,
        d: 2,
    },
    Clifford {
        a: 0,
        b: 0,
        c: 1,
        d: 0,
    },
    Clifford {
        a: 2,
        b: 0,
        c: 3,
        d: 6,
    },
    Clifford {
        a: 1,
        b: 1,
        c: 3,
        d: 4,
    },
];

// The inverse of E^a X^b S^c, at 8a + 4b + c. Row 12, counted from 0, is (2,1,1,2) in the Rust, which is no inverse.
const CINV_TABLE: [Clifford; 24] = [
    Clifford {
        a: 0,
        b: 0,
        c: 0,
        d: 0,
    },
    Clifford {
        a: 0,
        b: 0,
        c: 3,
        d: 0,
    },
    Clifford {
        a: 0,
        b: 0,
        c: 2,
        d: 0,
    },
    Clifford {
        a: 0,
        b: 0,
        c: 1,
        d: 0,
    },
    Clifford {
        a: 0,
        b: 1,
        c: 0,
        d: 0,
    },
    Clifford {
        a: 0,
        b: 1,
        c: 1,
        d: 6,
    },
    Clifford {
        a: 0,
        b: 1,
        c: 2,
        d: 4,
    },
    Clifford {
        a: 0,
        b: 1,
        c: 3,
        d: 2,
    },
    Clifford {
        a: 2,
        b: 0,
        c: 0,
        d: 0,
    },
    Clifford {
        a: 1,
        b: 0,
        c: 1,
        d: 2,
    },
    Clifford {
        a: 2,
        b: 1,
        c: 0,
        d: 0,
    },
    Clifford {
        a: 1,
        b: 1,
        c: 3,
        d: 4,
    },
    Clifford {
        a: 2,
        b: 1,
        c: 2,
        d: 2,
    },
    Clifford {
        a: 1,
        b: 1,
        c: 1,
        d: 6,
    },
    Clifford {
        a: 2,
        b: 0,
        c: 2,
        d: 2,
    },
    Clifford {
        a: 1,
        b: 0,
        c: 3,
        d: 4,
    },
    Clifford {
        a: 1,
        b: 0,
        c: 0,
        d: 0,
    },
    Clifford {
        a: 2,
        b: 1,
        c: 3,
        d: 6,
    },
    Clifford {
        a: 1,
        b: 1,
        c: 2,
        d: 2,
    },
    Clifford {
        a: 2,
        b: 0,
        c: 3,
        d: 6,
    },
    Clifford {
        a: 1,
        b: 0,
        c: 2,
        d: 0,
    },
    Clifford {
        a: 2,
        b: 1,
        c: 1,
        d: 6,
    },
    Clifford {
        a: 1,
        b: 1,
        c: 0,
        d: 2,
    },
    Clifford {
        a: 2,
        b: 0,
        c: 1,
        d: 6,
    },
];

// A T past E^a X^b, at 2a + b.
const TCONJ_TABLE: [Tconj; 6] = [
    Tconj {
        axis: Axis::I,
        c: 0,
        d: 0,
    },
    Tconj {
        axis: Axis::I,
        c: 1,
        d: 7,
    },
    Tconj {
        axis: Axis::H,
        c: 3,
        d: 3,
    },
    Tconj {
        axis: Axis::H,
        c: 2,
        d: 0,
    },
    Tconj {
        axis: Axis::SH,
        c: 0,
        d: 5,
    },
    Tconj {
        axis: Axis::SH,
        c: 1,
        d: 4,
    },
];

// A row of each table, by a function of its own: each promises what its table was proved to say.
fn conj2_row(i: u8) -> Conj2
    requires { i < 8 }
    ensures { Row2 i result }
{
    CONJ2_TABLE[i as usize]
}

// Where MOVES has a letter before E^a.
fn move_at(l: Passing, a: u8) -> u8
    requires { a < 3 }
    ensures { result ≡ move_at l a }
{
    match l {
        Passing::X => a,
        Passing::S => a + 3,
    }
}

// X or S before E^a, moved past it.
fn past(l: Passing, a: u8) -> Clifford
    requires { a < 3 }
    ensures { Past l a result }
{
    MOVES[move_at(l, a) as usize]
}

// The letter of X^b S^c at a place.
fn letter_at(b: u8, n: u8) -> Passing
    ensures { result ≡ letter_at b n }
{
    if n < b { Passing::X } else { Passing::S }
}

// As `conj2_row`: what its own table was proved to say.
fn cinv_row(i: u8) -> Clifford
    requires { i < 24 }
    ensures { RowInv i result }
{
    CINV_TABLE[i as usize]
}

// As `conj2_row`: what its own table was proved to say.
fn tconj_row(i: u8) -> Tconj
    requires { i < 6 }
    ensures { RowT i result }
{
    TCONJ_TABLE[i as usize]
}

// The numbers brought into their ranges; those of `new` may be below 0, where % is no remainder.
fn ranged(a: u8, b: u8, c: u8, d: u8) -> Clifford
    ensures { result ≡ reduce a b c d }
{
    Clifford {
        a: a % 3,
        b: b % 2,
        c: c % 4,
        d: d % 8,
    }
}

impl Clifford {
    fn new(x: Four) -> Clifford
        ensures { Reduced x.a x.b x.c x.d result }
    {
        Clifford {
            a: x.a.rem_euclid(3) as u8,
            b: x.b.rem_euclid(2) as u8,
            c: x.c.rem_euclid(4) as u8,
            d: x.d.rem_euclid(8) as u8,
        }
    }

    // A letter before this Clifford: it passes E, and what it becomes passes X.
    fn moved(self, l: Passing) -> Clifford
        requires { Ranged self }
        ensures { result ≡ moved l self }
    {
        let e = past(l, self.a);
        let two = conj2_row(e.c * 2 + self.b);
        Clifford {
            a: e.a,
            b: (e.b + self.b) % 2,
            c: (two.c + self.c) % 4,
            d: (e.d + two.d + self.d) % 8,
        }
    }

    // X^b S^c before this Clifford, a letter at a time, the last one first.
    fn preceded(self, b: u8, c: u8) -> Clifford
        requires fact_1 { Ranged self }
        requires fact_2 { b < 2 }
        requires fact_3 { c < 4 }
        ensures { Preceded b c self result }
    {
        let mut q = self;
        for n in (0..b + c).rev() {
            q = q.moved(letter_at(b, n));
        }
        q
    }

    fn product(self, rhs: Clifford) -> Clifford
        requires fact_1 { Ranged self }
        requires fact_2 { Ranged rhs }
        ensures { result ≡ mul_c self rhs }
    {
        let q = rhs.preceded(self.b, self.c);
        ranged(self.a + q.a, q.b, q.c, q.d + self.d)
    }

    fn inverse(self) -> Clifford
        requires { Ranged self }
        ensures { result ≡ inv_c self }
    {
        let row = cinv_row(self.a * 8 + self.b * 4 + self.c);
        ranged(row.a, row.b, row.c, row.d + (8 - self.d))
    }

    fn decompose_coset(self) -> Coset
        requires { Ranged self }
        ensures { result ≡ split_c self }
    {
        let a = self.a;
        match a {
            0 => Coset {
                axis: Axis::I,
                rest: self,
            },
            1 => Coset {
                axis: Axis::H,
                rest: CLIFFORD_H.inverse().product(self),
            },
            _ => Coset {
                axis: Axis::SH,
                rest: CLIFFORD_SH.inverse().product(self),
            },
        }
    }

    // What stands before a T that comes after this Clifford, and what stands behind it.
    fn decompose_tconj(self) -> Coset
        requires { Ranged self }
        ensures { result ≡ tconj_c self }
    {
        let row = tconj_row(self.a * 2 + self.b);
        Coset {
            axis: row.axis,
            rest: ranged(0, self.b, self.c + row.c, self.d + row.d),
        }
    }
}

// Job 6: the product of two Cliffords, four numbers each.
pub fn clifford_product(x: Four, y: Four) -> Clifford
    ensures { Product (reduced x.a x.b x.c x.d) (reduced y.a y.b y.c y.d) result }
{
    Clifford::new(x).product(Clifford::new(y))
}

// Job 6: the inverse.
pub fn clifford_inverse(x: Four) -> Clifford
    ensures { Inverse (reduced x.a x.b x.c x.d) result }
{
    Clifford::new(x).inverse()
}

// Job 6: the coset split.
pub fn clifford_split(x: Four) -> Coset
    ensures { Split (reduced x.a x.b x.c x.d) result }
{
    Clifford::new(x).decompose_coset()
}
