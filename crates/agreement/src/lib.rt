// Demand 3 in running code: a word normalised, and its matrix synthesised.
#![tactic(auto)]

ghost use Rattle.std.specs.Prelude.{◌≤◌, length};
ghost use Rattle.exact.specs.Meaning.Outcome.{Decides};
ghost use Rattle.unitary.specs.Meaning.{as_from_gates};
ghost use Rattle.normal_form.specs.Meaning.{written};
ghost use Rattle.agreement.specs.Meaning.Agree.{Second, Alike, agreed, AgreeOutcome};

use exact::Refusal;
use normal_form::Counts;
use ring::Triple;
use unitary::DOmegaUnitary;

// Both ways' answers, and whether they are accepted with the same bytes: no Option, as the answers are there either way.
#[derive(Clone, Copy)]
pub struct Agreement {
    pub yes: bool,
    pub first: Result<Counts, Refusal>,
    pub second: Result<Counts, Refusal>,
}

// The second way: job 4 on what job 2 answered; a refusal of job 2 is handed on.
fn second_way(matrix: Result<DOmegaUnitary, Refusal>, buf: &mut [u8]) -> Result<Counts, Refusal>
    ensures { Second (as_from_gates matrix) buf.old (written result) buf.new }
{
    let m = matrix?;
    let t = Triple {
        k: i64::from(m.k),
        n: m.n,
        z: m.z,
        w: m.w,
    };
    let spelt = synthesis_of_clifford_t::synthesise(t, buf)?;
    Ok(Counts {
        bytes: spelt.bytes,
        tees: spelt.tees,
    })
}

// Each answer with its whole buffer: how far its word goes is in the answer alone.
fn alike(
    a: Result<Counts, Refusal>,
    first: &[u8],
    b: Result<Counts, Refusal>,
    second: &[u8],
) -> bool
    requires first_there { (written a).bytes ≤ length first.now }
    requires second_there { (written b).bytes ≤ length second.now }
    ensures { Decides (Alike (written a) first.now (written b) second.now) result }
{
    match (a, b) {
        (Ok(m), Ok(n)) => first[..m.bytes] == second[..n.bytes],
        _ => false,
    }
}

// Both ways with the letters of `word`, each into memory of its own.
pub fn agree(word: &[u8], first: &mut [u8], second: &mut [u8]) -> Agreement
    ensures { AgreeOutcome word.now first.old second.old (agreed result) first.new second.new }
{
    let a = normal_form::normalise(word, first);
    let b = second_way(unitary::from_gates(word), second);
    let yes = alike(a, first, b, second);
    Agreement {
        yes,
        first: a,
        second: b,
    }
}
