// The limits, and the refusals with their numbers (docs/SCOPE.md). The mathematics that every contract cites stands in specs/.
#![tactic(auto)]

ghost use Rattle.std.specs.Prelude.{◌≡◌, length};
ghost use Rattle.exact.specs.Meaning.Limits.{enough};
ghost use Rattle.exact.specs.Meaning.Handed.{number, place};

// A word's letters, and a reading's syllables.
pub const LONGEST: usize = 4096;
// An exponent.
pub const DEEPEST: i64 = 60;
// A coefficient's size, 2^30.
pub const LARGEST: i64 = 1073741824;
// The bytes that are always enough for a synthesised word.
pub const ENOUGH: usize = 376;

// The numbers that C is handed: 0, and one for each refusal. What is no export has the enum below.
pub const ACCEPTED: u8 = 0;

const LONG: u8 = 1;

const LETTER: u8 = 2;

const EXPONENT: u8 = 3;

const COEFFICIENT: u8 = 4;

const UNITARY: u8 = 5;

const DEEP: u8 = 6;

const ROOM: u8 = 7;

const RECORD: u8 = 8;

const STATEMENT: u8 = 9;

const PHASE: u8 = 10;

const SLOT: u8 = 17;

const FULL: u8 = 18;

// A refusal (docs/SCOPE.md, Refusals), with its place where it names one.
#[derive(Clone, Copy, PartialEq, Eq)]
pub enum Refusal {
    Long,
    Letter(usize),
    Exponent,
    Coefficient,
    Unitary,
    Deep(usize),
    Room,
    Record,
    Statement(usize),
    Phase(usize),
    Slot,
    Full,
}

impl Refusal {
    // No From: a refusal is two numbers to C, this one and its place.
    pub fn number(self) -> u8
        ensures { result ≡ number self }
    {
        match self {
            Refusal::Long => LONG,
            Refusal::Letter(_) => LETTER,
            Refusal::Exponent => EXPONENT,
            Refusal::Coefficient => COEFFICIENT,
            Refusal::Unitary => UNITARY,
            Refusal::Deep(_) => DEEP,
            Refusal::Room => ROOM,
            Refusal::Record => RECORD,
            Refusal::Statement(_) => STATEMENT,
            Refusal::Phase(_) => PHASE,
            Refusal::Slot => SLOT,
            Refusal::Full => FULL,
        }
    }

    // 0 where it names none.
    pub fn place(self) -> usize
        ensures { result ≡ place self }
    {
        match self {
            Refusal::Letter(at) => at,
            Refusal::Deep(at) => at,
            Refusal::Statement(at) => at,
            Refusal::Phase(at) => at,
            _ => 0,
        }
    }
}

// Zeros, as many as are always enough, for a synthesised word.
pub fn word_buffer() -> [u8; ENOUGH]
    ensures { enough ≡ length result }
{
    [0; ENOUGH]
}
