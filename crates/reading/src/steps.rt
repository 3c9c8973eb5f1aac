// What two letters do to a reading, by look-up: the kind of change to the syllables, and the Clifford behind them.
ghost use Rattle.std.specs.Prelude.{◌≡◌, ◌<◌};
ghost use Rattle.clifford.specs.Cliffords.{split_c};
ghost use Rattle.reading.specs.Steps.{letter_at, Fits, moved, Stepped, Gained, axis_at, tail_of, SizeIs};

use crate::table::Table;
use clifford::{Axis, Clifford, Coset};

// The Clifford (a,b,c,d) by its code 8a + 4b + c and its phase d. They are no bytes: two bytes the compiler copies as one number of 16 bits,
// and it would take that apart and put it together again at each letter. That they fit is no field of it: `moved` makes one of any entry.
#[derive(Clone, Copy)]
pub struct Tail {
    pub code: usize,
    pub phase: usize,
}

// The kind is 0 where the syllables stay, 1 where a T meets the last of them, 2 where HT is added and 3 where SHT is. A number and no enum: the
// table has it, and the code of a syllable that is added is pushed without a branch.
#[derive(Clone, Copy)]
pub(crate) struct Step {
    pub kind: u8,
    pub tail: Tail,
}

// Where the parts of the table begin: one list of bytes, of which `Right` speaks. The last row of two letters, which is the identity's, is the first
// of the syllables.
const SYLLABLES: usize = 384;

const AXES: usize = 480;

const KINDS: usize = 504;

const PAIRS: usize = 576;

// No From: the numbers of axes end at 2.
fn axis_at(a: usize) -> Axis
    ensures { result ≡ axis_at a }
{
    match a {
        0 => Axis::I,
        1 => Axis::H,
        _ => Axis::SH,
    }
}

impl Tail {
    // As an entry of the table has it, and a phase more. Summed as a byte: as a longer number it takes an instruction more at each two letters.
    fn moved(self, entry: u8, more: u8) -> Tail
        requires fact_1 { Fits self }
        requires fact_2 { more < 8 }
        ensures { result ≡ moved self entry more }
    {
        Tail {
            code: (entry % 32) as usize,
            phase: ((self.phase as u8 + entry / 32 + more) % 8) as usize,
        }
    }

    // After two letters, by their numbers.
    pub(crate) fn step(self, table: Table, first: u8, second: u8) -> Step
        requires fits { Fits self }
        requires letters { (first < 6) × (second < 6) }
        ensures { Stepped (letter_at first) (letter_at second) self result }
    {
        let pair = PAIRS + (first as usize * 6 + second as usize) * 2;
        let row = table.bytes[pair];
        let change = table.bytes[pair + 1];
        let kind = table.bytes[KINDS + change as usize + self.code];
        let entry = table.bytes[(row % 32) as usize * 24 + self.code];
        let tail = self.moved(entry, row / 32);
        Step { kind, tail }
    }

    // Behind the syllable of this code and one more T.
    pub(crate) fn behind(self, table: Table, syllable: u8) -> Tail
        requires fits { Fits self }
        requires syllable_few { syllable < 4 }
        ensures { Gained syllable self result }
    {
        let entry = table.bytes[SYLLABLES + syllable as usize * 24 + self.code];
        self.moved(entry, 0)
    }

    // The letters of it as it is written, one I where it is empty.
    pub(crate) fn size(self, table: Table) -> usize
        requires { Fits self }
        ensures { SizeIs (tail_of self) result }
    {
        let rest = self.split(table).rest;
        let n = self.code / 8 + rest.b as usize + rest.c as usize + rest.d as usize;
        if n == 0 { 1 } else { n }
    }

    // Its axis, and the Clifford behind it.
    pub fn split(self, table: Table) -> Coset
        requires { Fits self }
        ensures { result ≡ split_c (tail_of self) }
    {
        let entry = table.bytes[AXES + self.code];
        let Tail { code, phase } = self.moved(entry, 0);
        let rest = Clifford {
            a: (code / 8) as u8,
            b: (code / 4 % 2) as u8,
            c: (code % 4) as u8,
            d: phase as u8,
        };
        let axis = axis_at(self.code / 8);
        Coset { axis, rest }
    }
}
