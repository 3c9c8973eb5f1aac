// Cases of job 6, a line each, compared with stdout; then all inverses, and the Rust's rows against what the product works out.
#![tactic(auto)]

use clifford::{Clifford, Four};
use std::io;
use std::io::Write;

// As the Rust has it: X^b S^c E^a is E^a' X^b' S^c' omega^d', at 8a + 4b + c.
const CONJ3_TABLE: [Clifford; 24] = [
    Clifford {
        a: 0,
        b: 0,
        c: 0,
        d: 0,
    },
    Clifford {
        a: 0,
        b: 0,
        c: 1,
        d: 0,
    },
    Clifford {
        a: 0,
        b: 0,
        c: 2,
        d: 0,
    },
    Clifford {
        a: 0,
        b: 0,
        c: 3,
        d: 0,
    },
    Clifford {
        a: 0,
        b: 1,
        c: 0,
        d: 0,
    },
    Clifford {
        a: 0,
        b: 1,
        c: 1,
        d: 0,
    },
    Clifford {
        a: 0,
        b: 1,
        c: 2,
        d: 0,
    },
    Clifford {
        a: 0,
        b: 1,
        c: 3,
        d: 0,
    },
    Clifford {
        a: 1,
        b: 0,
        c: 0,
        d: 0,
    },
    Clifford {
        a: 2,
        b: 0,
        c: 3,
        d: 6,
    },
    Clifford {
        a: 1,
        b: 1,
        c: 2,
        d: 2,
    },
    Clifford {
        a: 2,
        b: 1,
        c: 3,
        d: 6,
    },
    Clifford {
        a: 1,
        b: 0,
        c: 2,
        d: 0,
    },
    Clifford {
        a: 2,
        b: 1,
        c: 1,
        d: 0,
    },
    Clifford {
        a: 1,
        b: 1,
        c: 0,
        d: 6,
    },
    Clifford {
        a: 2,
        b: 0,
        c: 1,
        d: 4,
    },
    Clifford {
        a: 2,
        b: 0,
        c: 0,
        d: 0,
    },
    Clifford {
        a: 1,
        b: 1,
        c: 3,
        d: 4,
    },
    Clifford {
        a: 2,
        b: 1,
        c: 0,
        d: 0,
    },
    Clifford {
        a: 1,
        b: 0,
        c: 1,
        d: 2,
    },
    Clifford {
        a: 2,
        b: 1,
        c: 2,
        d: 2,
    },
    Clifford {
        a: 1,
        b: 1,
        c: 1,
        d: 0,
    },
    Clifford {
        a: 2,
        b: 0,
        c: 2,
        d: 6,
    },
    Clifford {
        a: 1,
        b: 0,
        c: 3,
        d: 2,
    },
];

fn show<W: Write>(out: &mut W, q: Clifford) -> io::Result<()> {
    writeln!(out, "{},{},{},{}", q.a, q.b, q.c, q.d)
}

// No From in clifford: only these cases hand a Clifford in again.
fn four_of(q: Clifford) -> Four {
    Four {
        a: i32::from(q.a),
        b: i32::from(q.b),
        c: i32::from(q.c),
        d: i32::from(q.d),
    }
}

fn job6<W: Write>(out: &mut W) -> io::Result<()> {
    let h = Four::from([1, 0, 1, 5]);
    let s = Four::from([0, 0, 1, 0]);
    write!(out, "H S ")?;
    show(out, clifford::clifford_product(h, s))?;
    write!(out, "S H ")?;
    show(out, clifford::clifford_product(s, h))?;
    let x = Four::from([1, 1, 0, 0]);
    write!(out, "inverse of 1,1,0,0 ")?;
    show(out, clifford::clifford_inverse(x))?;
    write!(out, "and times it ")?;
    show(out, clifford::clifford_product(Four::from([2, 1, 2, 2]), x))?;
    write!(out, "the least numbers, twice inverted ")?;
    let q = clifford::clifford_inverse(Four::from([i32::MIN; 4]));
    show(out, clifford::clifford_inverse(four_of(q)))?;
    write!(out, "-1,-1,-1,-1 times I ")?;
    show(
        out,
        clifford::clifford_product(Four::from([-1; 4]), Four::from([0; 4])),
    )?;
    let split = clifford::clifford_split(Four::from([i32::MAX; 4]));
    write!(out, "the greatest, split {:?} ", split.axis)?;
    show(out, split.rest)
}

const UNIT: Clifford = Clifford {
    a: 0,
    b: 0,
    c: 0,
    d: 0,
};

// Each of the 192 Cliffords times its inverse.
fn inverses<W: Write>(out: &mut W) -> io::Result<()> {
    for n in 0..192 {
        let x = Four::from([n / 64, n / 32 % 2, n / 8 % 4, n % 8]);
        let q = four_of(clifford::clifford_inverse(x));
        if clifford::clifford_product(q, x) != UNIT {
            writeln!(out, "wrong inverse {n}")?;
        }
    }
    writeln!(out, "all 192 inverses tried")
}

// Each row against what the product works out.
fn rows<W: Write>(out: &mut W) -> io::Result<()> {
    for (i, row) in CONJ3_TABLE.iter().enumerate() {
        let n = i as i32;
        let left = Four::from([0, n / 4 % 2, n % 4, 0]);
        let q = clifford::clifford_product(left, Four::from([n / 8, 0, 0, 0]));
        if q != *row {
            write!(out, "wrong row {i}: ")?;
            show(out, q)?;
        }
    }
    writeln!(out, "all 24 rows of CONJ3_TABLE tried")
}

fn main(rt: HostRuntime) -> io::Result<()> {
    let mut out = rt.stdout();
    job6(&mut out)?;
    inverses(&mut out)?;
    rows(&mut out)
}
