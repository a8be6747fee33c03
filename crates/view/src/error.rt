// The refusals of the views, each an error type of its own: 01's refusals 7, 8, 9 and 11.
ghost use Rattle.view.specs.Refused.{number_of_view, view_in_table, AsView};
ghost use Rattle.view.specs.Refused.{number_of_full, need_of_full, full_in_table, AsFull};

use reader::RecordError;
use refusal::Refusal;
use std::error::Error;
use std::fmt;

// Why a view is refused: 7, a line's number that is not below their count (8), or 11.
#[derive(Clone, Copy, Debug, PartialEq, Eq)]
pub enum ViewError {
    NoRecord,
    NoLine,
    State,
}

// Why a full sequence is refused: 7, a scratch below the need (9), or 11.
#[derive(Clone, Copy, Debug, PartialEq, Eq)]
pub enum FullError {
    NoRecord,
    Room(usize),
    State,
}

// Each case is named by itself: a conversion is no derive.
impl From<RecordError> for ViewError {
    ghost from_gives = { AsView };

    fn from(error: RecordError) -> ViewError {
        match error {
            RecordError::NoRecord => ViewError::NoRecord,
            RecordError::State => ViewError::State,
        }
    }
}

impl From<RecordError> for FullError {
    ghost from_gives = { AsFull };

    fn from(error: RecordError) -> FullError {
        match error {
            RecordError::NoRecord => FullError::NoRecord,
            RecordError::State => FullError::State,
        }
    }
}

impl Refusal for ViewError {
    ghost number = { number_of_view };

    ghost need = { λ e. 0 };

    ghost in_table = { view_in_table };

    fn number(self) -> u32 {
        match self {
            ViewError::NoRecord => RecordError::NoRecord.number(),
            ViewError::NoLine => 8,
            ViewError::State => RecordError::State.number(),
        }
    }

    fn need(self) -> usize {
        0
    }
}

impl Refusal for FullError {
    ghost number = { number_of_full };

    ghost need = { need_of_full };

    ghost in_table = { full_in_table };

    fn number(self) -> u32 {
        match self {
            FullError::NoRecord => RecordError::NoRecord.number(),
            FullError::Room(_) => 9,
            FullError::State => RecordError::State.number(),
        }
    }

    fn need(self) -> usize {
        match self {
            FullError::Room(need) => need,
            FullError::NoRecord | FullError::State => 0,
        }
    }
}

impl fmt::Display for ViewError {
    fn fmt<W: fmt::Write>(&self, f: &mut fmt::Formatter<W>) -> fmt::Result {
        match self {
            ViewError::NoRecord => RecordError::NoRecord.fmt(f),
            ViewError::NoLine => f.write_str("the record has no line of that number"),
            ViewError::State => f.write_str("the state or the record's ends do not fit the bytes"),
        }
    }
}

impl fmt::Display for FullError {
    fn fmt<W: fmt::Write>(&self, f: &mut fmt::Formatter<W>) -> fmt::Result {
        match self {
            FullError::NoRecord => RecordError::NoRecord.fmt(f),
            FullError::Room(need) => write!(f, "the scratch has to have room for {need} bytes"),
            FullError::State => ViewError::State.fmt(f),
        }
    }
}

impl Error for ViewError {}

impl Error for FullError {}
