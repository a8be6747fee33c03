// The refusals of a record's writers (01, "Refusal numbers"): 7, 9, 10 and 11.
ghost use Rattle.std.proofs.Common.{rules};
ghost use Rattle.rewrite.specs.Refused.{number_of, need_of, FromRecord, FromWrite};
ghost use Rattle.rewrite.specs.declared.error.RewriteError.TheVariants.{NoRecord, Wrap, Room, State};

use reader::RecordError;
use refusal::Refusal;
use std::error::Error;
use std::fmt;
use write::WriteError;

// There is no current record (7), the width is 0 (10), the output has no room for the text, which needs so many bytes
// (9), or the reader's state or the record's ends are not such as a read leaves (11).
#[derive(Clone, Copy, Debug, PartialEq, Eq)]
pub enum RewriteError {
    NoRecord,
    Wrap,
    Room(usize),
    State,
}

impl Refusal for RewriteError {
    ghost number = { number_of };

    ghost need = { need_of };

    ghost in_table = { elim [
      | NoRecord ↦ Prim.search rules
      | Wrap ↦ Prim.search rules
      | Room n ↦ Prim.search rules
      | State ↦ Prim.search rules
    ] };

    fn number(self) -> u32 {
        match self {
            RewriteError::NoRecord => RecordError::NoRecord.number(),
            RewriteError::Wrap => WriteError::Wrap.number(),
            RewriteError::Room(need) => WriteError::Room(need).number(),
            RewriteError::State => RecordError::State.number(),
        }
    }

    fn need(self) -> usize {
        match self {
            RewriteError::Room(need) => need,
            _ => 0,
        }
    }
}

// Each case is named by itself: a conversion is no derive.
impl From<RecordError> for RewriteError {
    ghost from_gives = { FromRecord };

    fn from(error: RecordError) -> RewriteError {
        match error {
            RecordError::NoRecord => RewriteError::NoRecord,
            RecordError::State => RewriteError::State,
        }
    }
}

impl From<WriteError> for RewriteError {
    ghost from_gives = { FromWrite };

    fn from(error: WriteError) -> RewriteError {
        match error {
            WriteError::Wrap => RewriteError::Wrap,
            WriteError::Room(need) => RewriteError::Room(need),
        }
    }
}

impl fmt::Display for RewriteError {
    fn fmt<W: fmt::Write>(&self, f: &mut fmt::Formatter<W>) -> fmt::Result {
        match *self {
            RewriteError::NoRecord => RecordError::NoRecord.fmt(f),
            RewriteError::Wrap => WriteError::Wrap.fmt(f),
            RewriteError::Room(need) => WriteError::Room(need).fmt(f),
            RewriteError::State => {
                f.write_str("the reader's state, or the record's ends, are not as a read left them")
            }
        }
    }
}

impl Error for RewriteError {}
