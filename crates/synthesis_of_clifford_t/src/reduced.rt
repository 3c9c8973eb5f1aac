// A reduced unitary matrix within the limit of the exponent: what synthesis takes apart.
ghost use Rattle.std.specs.Prelude.{◌<◌, ◌≤◌, T};
ghost use Rattle.exact.specs.Meaning.Limits.{deepest};
ghost use Rattle.exact.specs.Meaning.Triple.{Unitary};
ghost use Rattle.exact.specs.Matrices.Least.{reduced_test};
ghost use Rattle.unitary.specs.Meaning.{triple};

use unitary::DOmegaUnitary;

#[derive(Clone, Copy)]
pub struct Reduced {
    pub matrix: DOmegaUnitary,
    ghost unitary: { Unitary (triple matrix) },
    ghost reduced: { T (reduced_test (triple matrix)) },
    ghost n_small: { matrix.n < 8 },
    ghost few: { matrix.k ≤ deepest },
}
