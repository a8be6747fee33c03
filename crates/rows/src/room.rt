// Refusal 9 of what puts text into a lent output.
ghost use Rattle.std.proofs.Common.{rules};

use refusal::Refusal;
use std::error::Error;
use std::fmt;

// The output has no room for the text, which needs so many bytes.
#[derive(Clone, Copy, Debug, PartialEq, Eq)]
pub struct Room(pub usize);

impl Refusal for Room {
    ghost number = { λ room. 9 };

    ghost need = { λ room. room.0 };

    ghost in_table = { λ room. Prim.search rules };

    fn number(self) -> u32 {
        9
    }

    fn need(self) -> usize {
        self.0
    }
}

impl fmt::Display for Room {
    fn fmt<W: fmt::Write>(&self, f: &mut fmt::Formatter<W>) -> fmt::Result {
        write!(
            f,
            "the output has no room for the {} bytes of the text",
            self.0
        )
    }
}

impl Error for Room {}
