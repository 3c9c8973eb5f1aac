// The T count straight from a matrix, and the rotation that the matrix is: no word is made.
#![tactic(auto)]

ghost use Rattle.std.specs.Prelude.{IfOk, nat_abs};
ghost use Rattle.exact.specs.Meaning.Handed.{checked};
ghost use Rattle.unitary.specs.Checks.{CheckOutcome};
ghost use Rattle.rotation.specs.Meaning.{as_answer, RotationOutcome, as_count, CountOutcome};
ghost use Rattle.rotation.specs.Turned.{WorkedOut};

use columns::columns;
use exact::Refusal;
use ring::Triple;
use root_two::Vect;
use unitary::DOmegaUnitary;

mod columns;
mod depth;
mod turn;

// What X, Y and Z become, the columns, each over root two to the e.
#[derive(Clone, Copy, Default)]
pub struct Rotation {
    pub x: Vect,
    pub y: Vect,
    pub z: Vect,
    pub e: u8,
}

// The rotation of a triple's matrix, not yet over the least power.
fn worked_out(t: Triple) -> Result<Rotation, Refusal>
    ensures check { CheckOutcome t.k t.z t.w (checked result) }
    ensures worked { IfOk result (λ r. WorkedOut (nat_abs t.k) t.n t.z t.w r) }
{
    unitary::check(t)?;
    // By its fields, as in `unitary::reduce`.
    let r = columns(DOmegaUnitary {
        z: t.z,
        w: t.w,
        n: t.n,
        k: t.k as u8,
    });
    Ok(r.turned(t.n))
}

// The rotation of a triple's matrix, over the least power of root two.
pub fn rotate(t: Triple) -> Result<Rotation, Refusal>
    ensures { RotationOutcome t.k t.n t.z t.w (as_answer result) }
{
    let r = worked_out(t)?;
    Ok(r.over(r.depth()))
}

// How many T letters the normal word with this matrix has: the least exponent of its rotation.
pub fn t_count(t: Triple) -> Result<u8, Refusal>
    ensures { CountOutcome t.k t.n t.z t.w (as_count result) }
{
    let rotation = worked_out(t)?;
    Ok(rotation.e - rotation.depth())
}
