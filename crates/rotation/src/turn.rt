// A rotation turned about Z beforehand, by n eighths: right multiplication by T to the n.
ghost use Rattle.std.specs.Prelude.{◌≡◌, ◌+◌, ◌^◌, ◌≤◌, ◌<◌};
ghost use Rattle.exact.specs.Meaning.Number.{ints};
ghost use Rattle.exact.specs.Rotation.Sizes.{UpC};
ghost use Rattle.exact.specs.Rotation.Worked.{quarter, eighth, quarters};
ghost use Rattle.rotation.specs.Meaning.{axes_of, rotation_of};
ghost use Rattle.rotation.specs.Turned.{Turned};

use crate::Rotation;

// A rotation whose numbers are at most 2^60 in size, as those of a triple with n = 0 and its quarters are: they leave room for an eighth's sums.
#[derive(Clone, Copy)]
pub(crate) struct Straight {
    pub rotation: Rotation,
    ghost small: { UpC (2 ^ 60) (axes_of rotation) },
    ghost few: { rotation.e ≤ 120 },
}

impl Straight {
    // X becomes what Y became, and Y minus what X became.
    fn quarter(self) -> Straight
        ensures { rotation_of result.rotation ≡ record { m = quarter ints (axes_of self.rotation); e = self.rotation.e } }
    {
        let Rotation { x, y, z, e } = self.rotation;
        Straight {
            rotation: Rotation { x: y, y: -x, z, e },
        }
    }

    fn eighth(self) -> Rotation
        ensures { rotation_of result ≡ record { m = eighth ints (axes_of self.rotation); e = self.rotation.e + 1 } }
    {
        let Rotation { x, y, z, e } = self.rotation;
        Rotation {
            x: x + y,
            y: y + -x,
            z: z.times(),
            e: e + 1,
        }
    }

    // At most three.
    fn quarters(self, n: u8) -> Straight
        requires { n < 4 }
        ensures { rotation_of result.rotation ≡ record { m = quarters n (axes_of self.rotation); e = self.rotation.e } }
    {
        let mut r = self;
        for _ in 0..n {
            r = r.quarter();
        }
        r
    }

    pub(crate) fn turned(self, n: u8) -> Rotation
        ensures { Turned n (rotation_of self.rotation) (rotation_of result) }
    {
        let m = n % 8;
        let r = self.quarters(m / 2);
        if m % 2 == 0 { r.rotation } else { r.eighth() }
    }
}
