// The refusals of setup, reports, seeks, positions and the current record, as errors (01, "Refusal numbers").
ghost use Rattle.reader.specs.Calls.{number_of_setup, number_of_report, number_of_seek};
ghost use Rattle.reader.specs.Calls.{number_of_state, number_of_record};
ghost use Rattle.reader.specs.Refusals.{
  setup_in_table,
  state_in_table,
  report_in_table,
  seek_in_table,
  record_in_table,
};

use refusal::Refusal;
use std::error::Error;
use std::fmt;

// Setup's refusal 1.
#[derive(Clone, Copy, Debug, PartialEq, Eq)]
pub struct SetupError;

// A report's refusals: 6, a count that no open ask has room for, and 11.
#[derive(Clone, Copy, Debug, PartialEq, Eq)]
pub enum ReportError {
    Count,
    State,
}

// A seek's refusals: 5, a place that no record can have, and 11.
#[derive(Clone, Copy, Debug, PartialEq, Eq)]
pub enum SeekError {
    Place,
    State,
}

// Refusal 11, where it is the only one.
#[derive(Clone, Copy, Debug, PartialEq, Eq)]
pub struct StateError;

// The refusals of what goes by the current record: 7, none is current, and 11.
#[derive(Clone, Copy, Debug, PartialEq, Eq)]
pub enum RecordError {
    NoRecord,
    State,
}

impl Refusal for SetupError {
    ghost number = { number_of_setup };

    ghost need = { λ e. 0 };

    ghost in_table = { setup_in_table };

    fn number(self) -> u32 {
        1
    }

    fn need(self) -> usize {
        0
    }
}

impl Refusal for ReportError {
    ghost number = { number_of_report };

    ghost need = { λ e. 0 };

    ghost in_table = { report_in_table };

    fn number(self) -> u32 {
        match self {
            ReportError::Count => 6,
            ReportError::State => StateError.number(),
        }
    }

    fn need(self) -> usize {
        0
    }
}

impl Refusal for SeekError {
    ghost number = { number_of_seek };

    ghost need = { λ e. 0 };

    ghost in_table = { seek_in_table };

    fn number(self) -> u32 {
        match self {
            SeekError::Place => 5,
            SeekError::State => StateError.number(),
        }
    }

    fn need(self) -> usize {
        0
    }
}

impl Refusal for StateError {
    ghost number = { number_of_state };

    ghost need = { λ e. 0 };

    ghost in_table = { state_in_table };

    fn number(self) -> u32 {
        11
    }

    fn need(self) -> usize {
        0
    }
}

impl Refusal for RecordError {
    ghost number = { number_of_record };

    ghost need = { λ e. 0 };

    ghost in_table = { record_in_table };

    fn number(self) -> u32 {
        match self {
            RecordError::NoRecord => 7,
            RecordError::State => StateError.number(),
        }
    }

    fn need(self) -> usize {
        0
    }
}

impl fmt::Display for SetupError {
    fn fmt<W: fmt::Write>(&self, f: &mut fmt::Formatter<W>) -> fmt::Result {
        f.write_str("the capacity does not fit the window, or a lent slice has no fitting length")
    }
}

impl fmt::Display for ReportError {
    fn fmt<W: fmt::Write>(&self, f: &mut fmt::Formatter<W>) -> fmt::Result {
        match self {
            ReportError::Count => f.write_str(
                "no ask is open, or more bytes are reported than it has room for",
            ),
            ReportError::State => StateError.fmt(f),
        }
    }
}

impl fmt::Display for SeekError {
    fn fmt<W: fmt::Write>(&self, f: &mut fmt::Formatter<W>) -> fmt::Result {
        match self {
            SeekError::Place => f.write_str("no record can begin at the position sought"),
            SeekError::State => StateError.fmt(f),
        }
    }
}

impl fmt::Display for StateError {
    fn fmt<W: fmt::Write>(&self, f: &mut fmt::Formatter<W>) -> fmt::Result {
        f.write_str(
            "the reader's state, or the length of a lent slice, is not as its setup and calls left it",
        )
    }
}

impl fmt::Display for RecordError {
    fn fmt<W: fmt::Write>(&self, f: &mut fmt::Formatter<W>) -> fmt::Result {
        match self {
            RecordError::NoRecord => f.write_str("no record is current"),
            RecordError::State => StateError.fmt(f),
        }
    }
}

impl Error for SetupError {}

impl Error for ReportError {}

impl Error for SeekError {}

impl Error for StateError {}

impl Error for RecordError {}
