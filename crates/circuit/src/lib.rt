// The editions of OpenQASM, and their headers as bytes.
#![tactic(auto)]

ghost use Rattle.std.specs.Prelude.{◌≡◌};
ghost use Rattle.circuit.specs.Meaning.{header, row, edition_of};

#[derive(Clone, Copy, PartialEq, Eq)]
pub enum Edition {
    Two,
    Three,
}

impl Edition {
    pub fn header(self) -> &'static [u8]
        ensures { result.now ≡ header (edition_of self) }
    {
        match self {
            Edition::Two => b"OPENQASM 2.0;\ninclude \"qelib1.inc\";\nqreg q[1];\n",
            Edition::Three => b"OPENQASM 3.0;\ninclude \"stdgates.inc\";\nqubit[1] q;\n",
        }
    }

    // Whether it has the global phase as a statement.
    pub fn has_phase(self) -> bool
        ensures { result ≡ (row (edition_of self)).has_phase }
    {
        match self {
            Edition::Two => false,
            Edition::Three => true,
        }
    }
}
