// How a writer refuses: 10 for lines without a width, and 9, with the need, for an output without room.
ghost use Rattle.std.proofs.Common.{rules};
ghost use Rattle.write.specs.Output.{number_of, need_of};
ghost use Rattle.write.specs.declared.error.WriteError.TheVariants.{Wrap, Room};

use refusal::Refusal;
use std::error::Error;
use std::fmt;

#[derive(Clone, Copy, Debug, PartialEq, Eq)]
pub enum WriteError {
    Wrap,
    Room(usize),
}

impl Refusal for WriteError {
    ghost number = { number_of };

    ghost need = { need_of };

    ghost in_table = { elim [ Wrap ↦ Prim.search rules | Room n ↦ Prim.search rules ] };

    fn number(self) -> u32 {
        match self {
            WriteError::Wrap => 10,
            WriteError::Room(_) => 9,
        }
    }

    fn need(self) -> usize {
        match self {
            WriteError::Wrap => 0,
            WriteError::Room(need) => need,
        }
    }
}

impl fmt::Display for WriteError {
    fn fmt<W: fmt::Write>(&self, f: &mut fmt::Formatter<W>) -> fmt::Result {
        match self {
            WriteError::Wrap => write!(f, "lines of width 0"),
            WriteError::Room(need) => write!(f, "the output is shorter than {need} bytes"),
        }
    }
}

impl Error for WriteError {}
