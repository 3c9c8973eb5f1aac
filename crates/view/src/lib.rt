// Job 7, the numeric view: the four entries of a checked triple as eight f64. It stands for `to_complex_matrix`.
#![tactic(auto)]

ghost use Rattle.view.specs.Meaning.Outcome.{as_answer, ViewOutcome};

use exact::Refusal;
use matrix::{View, entries};
use ring::Triple;
use unitary::DOmegaUnitary;

mod float;
pub mod matrix;
mod number;

// Job 7.
pub fn view(t: Triple) -> Result<View, Refusal>
    ensures { ViewOutcome t.k t.n t.z t.w (as_answer result) }
{
    unitary::check(t)?;
    // By its fields, as in `unitary::reduce`.
    Ok(entries(DOmegaUnitary {
        z: t.z,
        w: t.w,
        n: t.n,
        k: t.k as u8,
    }))
}
