// How often root two divides all nine entries of a rotation, and a rotation divided by it.
ghost use Rattle.std.specs.Prelude.{◌≤◌};
ghost use Rattle.exact.specs.Rotation.Least.{Divides, Deepest};
ghost use Rattle.rotation.specs.Meaning.{axes_of};
ghost use Rattle.rotation.specs.Shared.{TwosIn, NineP, NineQ, Lowered};

use crate::Rotation;
use root_two::{Root, Vect};

// How often 2 divides it, and 64 for 0, which any power divides; `ntz` of ring has 0 there, as in the Rust.
fn twos(x: i64) -> u8
    ensures { TwosIn x result }
{
    x.unsigned_abs().trailing_zeros() as u8
}

impl Rotation {
    // Its p has the trailing zeros that the nine p's have in common, and its q those of the nine q's.
    fn common(self) -> Root
        ensures p { NineP (axes_of self) result.p }
        ensures q { NineQ (axes_of self) result.q }
    {
        let columns = Vect {
            x: self.x.common(),
            y: self.y.common(),
            z: self.z.common(),
        };
        columns.common()
    }

    // At most the exponent. Of p + q·root two an even power of root two is told by p, an odd one by q.
    pub(crate) fn depth(self) -> u8
        requires { self.e ≤ 121 }
        ensures { Deepest self.e (axes_of self) result }
    {
        let common = self.common();
        let by_p = 2 * twos(common.p);
        let by_q = 2 * twos(common.q) + 1;
        by_p.min(by_q).min(self.e)
    }

    pub(crate) fn over(self, n: u8) -> Rotation
        requires fact_1 { self.e ≤ 121 }
        requires fact_2 { n ≤ self.e }
        requires fact_3 { Divides n (axes_of self) }
        ensures { Lowered n self result }
    {
        Rotation {
            x: self.x.over(n),
            y: self.y.over(n),
            z: self.z.over(n),
            e: self.e - n,
        }
    }
}
