// The letters of a right text put into a buffer, from the right: its first statement is the rightmost letter.
// A place and no slice: `Before` and `PutsBefore` tell what stands behind the place too.
#![tactic(auto)]

ghost use Rattle.std.specs.Prelude.{[], ◌∷◌, ◌≤◌, ◌<◌, length};
ghost use Rattle.circuit.specs.Lines.{OfCircuit};
ghost use Rattle.circuit_letters.specs.Letters.{Before, PutsBefore, Stands, PutsStatement, PutsLetters};

// How far the text is walked, and the place that the letters which are put begin at.
#[derive(Clone, Copy)]
struct Step {
    at: usize,
    left: usize,
}

// A byte put before a place, which is then its own.
fn put_before(buf: &mut [u8], left: usize, b: u8) -> usize
    requires { (0 < left) × (left ≤ length buf.old) }
    ensures { Before buf.old left b buf.new result }
{
    buf[left - 1] = b;
    left - 1
}

// SSS.
fn put_esses(buf: &mut [u8], left: usize) -> usize
    requires { (3 ≤ left) × (left ≤ length buf.old) }
    ensures { PutsBefore buf.old left (83 ∷ 83 ∷ 83 ∷ []) buf.new result }
{
    let second = put_before(buf, left, b'S');
    let third = put_before(buf, second, b'S');
    put_before(buf, third, b'S')
}

// The letters of the statement at a place, put before a place of the buffer; its second byte tells its kind.
fn put_statement(text: &[u8], step: Step, buf: &mut [u8]) -> Step
    requires { Stands text.now step.at step.left (length buf.old) }
    ensures { PutsStatement text.now step.at step.left buf.old result buf.new }
{
    let Step { at, left } = step;
    let b = text[at];
    match text[at + 1] {
        b' ' => {
            // a letter is its gate's name in upper case
            let left = put_before(buf, left, b - 32);
            Step { at: at + 8, left }
        }
        b'd' => {
            let esses = put_esses(buf, left);
            if b == b's' {
                return Step {
                    at: at + 10,
                    left: esses,
                };
            }
            let left = put_before(buf, esses, b'T');
            Step { at: at + 10, left }
        }
        _ => {
            let left = put_before(buf, left, b'W');
            Step { at: at + 14, left }
        }
    }
}

pub fn put_letters(text: &[u8], start: usize, letters: usize, buf: &mut [u8])
    requires fact_1 { OfCircuit text.now start letters }
    requires fact_2 { letters ≤ length buf.old }
    ensures { PutsLetters text.now buf.old buf.new }
{
    let mut step = Step {
        at: start,
        left: letters,
    };
    // no `for`: a statement's line has its own length
    while step.at < text.len() {
        step = put_statement(text, step, buf);
    }
}
