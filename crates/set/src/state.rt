// What a record set is and what a set call answers.
use reader::{Position, Reader};
use window::{Ask, InputOffset};

// A record set: how many of its bytes are filled, how many records it holds, the line of the first, and the place of
// its bytes in the input. The bytes and the two tables, of marks and of ends, stay with the caller. Marks are bare
// numbers, two for each record, as the definitions `pairs`, `start_of` and `ends_to` take them: its start, and how
// many ends there are up to its last.
#[derive(Clone, Copy, Debug, PartialEq, Eq)]
pub struct Set {
    pub filled: usize,
    pub count: usize,
    pub line: u64,
    pub base: InputOffset,
}

// What a set call answers: an ask, so many records with so many bytes, the end, or a refusal: `Start` 2, `Window` 3,
// `Table` 4, `Place` 5, `State` 11, `Room` 12. It is one enum, as 01 wants a read's answer.
#[derive(Clone, Copy, Debug, PartialEq, Eq)]
pub enum Filled {
    Ask(Ask),
    Records { count: usize, filled: usize },
    End,
    Start { line: u64, byte: u8 },
    Window(Position),
    Table(Position),
    Place,
    State,
    Room,
}

#[derive(Clone, Copy, Debug, PartialEq, Eq)]
pub struct NextSet {
    pub reader: Reader,
    pub set: Set,
    pub answer: Filled,
}
