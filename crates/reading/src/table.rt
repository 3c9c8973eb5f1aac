// The table that letters are looked up in (crate `normal_form` has it), and the letters' numbers.
ghost use Rattle.std.specs.Prelude.{◌≡◌};
ghost use Rattle.reading.specs.Steps.{Right, numbered};

// The table as it is lent: what it says is right.
#[derive(Clone, Copy)]
pub struct Table<'a> {
    pub bytes: &'a [u8],
    pub ghost right: { Right bytes.now },
}

// H, S, X, W and T are 0 to 4 in the table, and I is 5, as is a second letter that is not there.
pub const IDENTITY: u8 = 5;

const LETTERS: usize = 648;

impl Table<'_> {
    // The number of a letter and no enum: it comes out of the table as a byte and goes in again as a row; an enum made of it would be a match at each letter.
    pub fn number(self, b: u8) -> Option<u8>
        ensures { result ≡ numbered b }
    {
        match b {
            b'H'..=b'X' => {
                let n = self.bytes[LETTERS + (b - b'H') as usize];
                if n > IDENTITY { None } else { Some(n) }
            }
            _ => None,
        }
    }
}
