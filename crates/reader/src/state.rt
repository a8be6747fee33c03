// What a reader is and what it answers.
ghost use Rattle.std.specs.Prelude.{◌≡◌};
ghost use Rattle.reader.specs.State.{is_current, mark_at};
ghost use Rattle.reader.specs.Read.{lasts};

use crate::error::{RecordError, ReportError, SeekError};
use window::{Ask, Fill, InputOffset, WindowOffset};

// The line (from 1) and the byte (from 0) of a record's `>`.
#[derive(Clone, Copy, Debug, PartialEq, Eq)]
pub struct Position {
    pub line: u64,
    pub byte: InputOffset,
}

// The record that is searched or was given: where it starts in the window, on which line, how far it was searched,
// and how many of its ends were recorded.
#[derive(Clone, Copy, Debug, PartialEq, Eq)]
pub struct Mark {
    pub start: WindowOffset,
    pub search: WindowOffset,
    pub count: usize,
    pub line: u64,
}

impl Mark {
    // A record that begins at a place of the window, on a line.
    pub(crate) fn new(start: usize, line: u64) -> Mark
        ensures { result ≡ mark_at start start 0 line }
    {
        Mark {
            start: WindowOffset(start),
            search: WindowOffset(start),
            count: 0,
            line,
        }
    }
}

// Where a reader stands. `Lead`: before the first record. `Sought`: after a seek. `Searching`: a record is searched.
// `Current`: a record was given. `Ended`: the end, behind a record given. `Over`: the end, with no record to name.
// `Window`, `Table`, `Astray`: refusals 3, 4 and a read's 5, which last. `Ahead`: the next record is known and shown,
// a set having ended before it.
#[derive(Clone, Copy, Debug, PartialEq, Eq)]
pub enum Phase {
    Lead,
    Sought,
    Searching,
    Current,
    Ended,
    Over,
    Window,
    Table,
    Astray,
    Ahead,
}

impl Phase {
    pub(crate) fn is_current(self) -> bool
        ensures { result ≡ is_current self }
    {
        self == Phase::Current
    }

    // Refusals 3 and 4 are answered before an open ask.
    pub(crate) fn is_lasting(self) -> bool
        ensures { result ≡ lasts self }
    {
        matches!(self, Phase::Window | Phase::Table)
    }
}

#[derive(Clone, Copy, Debug, PartialEq, Eq)]
pub struct Reader {
    pub fill: Fill,
    pub mark: Mark,
    pub slots: usize,
    pub phase: Phase,
}

// What a read answers: an ask, a record, the end, or a refusal: `Start` 2, `Window` 3, `Table` 4, `Place` 5, `State`
// 11. It is one enum, and refusals no error, since 01 wants `Option<Result<..>>` to become one.
#[derive(Clone, Copy, Debug, PartialEq, Eq)]
pub enum Answer {
    Ask(Ask),
    Record(Position),
    End,
    Start { line: u64, byte: u8 },
    Window(Position),
    Table(Position),
    Place,
    State,
}

#[derive(Clone, Copy, Debug, PartialEq, Eq)]
pub struct Next {
    pub reader: Reader,
    pub answer: Answer,
}

// What stands behind the current record: a whole record, one that is not whole in the filled bytes or that a read
// would refuse, or the end.
#[derive(Clone, Copy, Debug, PartialEq, Eq)]
pub enum Sight {
    Whole(Position),
    Unfinished,
    Over,
}

// What a look sees, and the reader that it leaves.
#[derive(Clone, Copy, Debug, PartialEq, Eq)]
pub struct Look {
    pub reader: Reader,
    pub sight: Result<Sight, RecordError>,
}

// What a report comes to; a refused one hands the reader back as it was.
#[derive(Clone, Copy, Debug, PartialEq, Eq)]
pub struct Reported {
    pub reader: Reader,
    pub answer: Result<(), ReportError>,
}

// What a seek comes to; a refused one hands the reader back as it was.
#[derive(Clone, Copy, Debug, PartialEq, Eq)]
pub struct Sought {
    pub reader: Reader,
    pub answer: Result<(), SeekError>,
}

// What views and writers of the current record go by: where it starts, the filled bytes, how many ends it has.
#[derive(Clone, Copy, Debug, PartialEq, Eq)]
pub struct Current {
    pub start: usize,
    pub filled: usize,
    pub count: usize,
}
