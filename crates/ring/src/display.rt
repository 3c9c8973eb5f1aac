// A ring number in text: its four coefficients, commas between them, as a record has them.
ghost use Rattle.std.specs.Prelude.{Some};
ghost use Rattle.ring.specs.Display.{coefficients};

use crate::ZOmega;
use std::fmt;

impl fmt::Display for ZOmega {
    ghost output = { λ x. Some (coefficients x) };

    fn fmt<W: fmt::Write>(&self, f: &mut fmt::Formatter<W>) -> fmt::Result {
        let ZOmega { a, b, c, d } = *self;
        write!(f, "{a},{b},{c},{d}")
    }
}
