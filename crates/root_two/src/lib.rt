// Numbers p + q·root two with 64-bit p and q, and vectors of three.
#![tactic(auto)]

ghost use Rattle.std.specs.Prelude.{◌≡◌, ◌^◌, ◌≤◌};
ghost use Rattle.exact.specs.Meaning.Number.{ints};
ghost use Rattle.exact.specs.Meaning.Rotation.{add_r, times_r, lift, add_v, times_v};
ghost use Rattle.exact.specs.Algebra.RootTwo.{neg_r};
ghost use Rattle.exact.specs.Algebra.RootPower.{DividesR, lift_r};
ghost use Rattle.exact.specs.Rotation.Sizes.{Up, UpV};
ghost use Rattle.exact.specs.Rotation.Least.{DividesV};
ghost use Rattle.exact.specs.Rotation.Worked.{sub_r, neg_v};
ghost use Rattle.root_two.specs.Meaning.{root, vect};
ghost use Rattle.root_two.specs.Code.{Addable, Subtractable};
ghost use Rattle.root_two.specs.Common.{Common, SharesP, SharesQ};

use std::ops::{Add, Neg, Sub};

#[derive(Clone, Copy, Default)]
pub struct Root {
    pub p: i64,
    pub q: i64,
}

#[derive(Clone, Copy, Default)]
pub struct Vect {
    pub x: Root,
    pub y: Root,
    pub z: Root,
}

// Its trailing zeros are those that the three have in common.
pub fn common(a: i64, b: i64, c: i64) -> i64
    ensures { Common a b c result }
{
    a | b | c
}

impl Add for Root {
    type Output = Root;

    ghost can_add = { λ x y. Addable (root x) (root y) };

    ghost add_gives = { λ x y r. root r ≡ add_r ints (root x) (root y) };

    fn add(self, o: Root) -> Root {
        Root {
            p: self.p + o.p,
            q: self.q + o.q,
        }
    }
}

impl Sub for Root {
    type Output = Root;

    ghost can_sub = { λ x y. Subtractable (root x) (root y) };

    ghost sub_gives = { λ x y r. root r ≡ sub_r ints (root x) (root y) };

    fn sub(self, o: Root) -> Root {
        Root {
            p: self.p - o.p,
            q: self.q - o.q,
        }
    }
}

impl Neg for Root {
    type Output = Root;

    ghost can_neg = { λ x. Up (2 ^ 62) (root x) };

    ghost neg_gives = { λ x r. root r ≡ neg_r ints (root x) };

    fn neg(self) -> Root {
        Root {
            p: -self.p,
            q: -self.q,
        }
    }
}

impl Root {
    // Times root two.
    fn times(self) -> Root
        requires { Up (2 ^ 61) (root self) }
        ensures { root result ≡ times_r ints (root self) }
    {
        Root {
            p: self.q + self.q,
            q: self.p,
        }
    }

    // Divided by root two to the n: by root two an odd number of times, p and q change places.
    fn over(self, n: u8) -> Root
        requires fact_1 { n ≤ 121 }
        requires fact_2 { DividesR n (root self) }
        ensures { lift_r n (root result) ≡ root self }
    {
        let m = n / 2;
        if n % 2 == 0 {
            Root {
                p: self.p >> m,
                q: self.q >> m,
            }
        } else {
            Root {
                p: self.q >> m,
                q: self.p >> (m + 1),
            }
        }
    }
}

// The size is asked for and stands in no type: a sum may be over it.
impl Add for Vect {
    type Output = Vect;

    ghost can_add = { λ v w. UpV (2 ^ 60) (vect v) × UpV (2 ^ 60) (vect w) };

    ghost add_gives = { λ v w r. vect r ≡ add_v ints (vect v) (vect w) };

    fn add(self, o: Vect) -> Vect {
        Vect {
            x: self.x + o.x,
            y: self.y + o.y,
            z: self.z + o.z,
        }
    }
}

impl Neg for Vect {
    type Output = Vect;

    ghost can_neg = { λ v. UpV (2 ^ 60) (vect v) };

    ghost neg_gives = { λ v r. vect r ≡ neg_v ints (vect v) };

    fn neg(self) -> Vect {
        Vect {
            x: -self.x,
            y: -self.y,
            z: -self.z,
        }
    }
}

impl Vect {
    pub fn times(self) -> Vect
        requires { UpV (2 ^ 60) (vect self) }
        ensures { vect result ≡ times_v ints (vect self) }
    {
        Vect {
            x: self.x.times(),
            y: self.y.times(),
            z: self.z.times(),
        }
    }

    pub fn over(self, n: u8) -> Vect
        requires fact_1 { n ≤ 121 }
        requires fact_2 { DividesV n (vect self) }
        ensures { lift n (vect result) ≡ vect self }
    {
        Vect {
            x: self.x.over(n),
            y: self.y.over(n),
            z: self.z.over(n),
        }
    }

    // Of the three p's, and of the three q's.
    pub fn common(self) -> Root
        ensures p { SharesP (vect self) result.p }
        ensures q { SharesQ (vect self) result.q }
    {
        Root {
            p: common(self.x.p, self.y.p, self.z.p),
            q: common(self.x.q, self.y.q, self.z.q),
        }
    }
}
