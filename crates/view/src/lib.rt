// Views of a record (01, module 5) over bytes, the place of its `>` and its recorded ends: a window's current record
// and a set's record are both such. Each view is total: it tests the ends that it uses.
#![tactic(auto)]

mod current;
mod error;
mod joined;
mod parts;
mod trimmed;

pub use current::{current_record, desc, full_seq, head, id, line, lines, seq};
pub use error::{FullError, ViewError};
pub use joined::pick;
pub use parts::shown;
pub use trimmed::TrimmedLines;

// A record in bytes, by the place of its `>` and the recorded ends of its lines, the head's end first.
#[derive(Clone, Copy, Debug, PartialEq, Eq)]
pub struct Record<'b, 'e> {
    pub bytes: &'b [u8],
    pub start: usize,
    pub ends: &'e [usize],
}

// The place of a part: from a byte up to another.
#[derive(Clone, Copy, Debug, PartialEq, Eq)]
pub struct Extent {
    pub from: usize,
    pub to: usize,
}

// What a view answers: the extent of a part, that there is none (a head without a description), or a refusal.
pub type View = Result<Option<Extent>, ViewError>;

// Where the full sequence is: a part of the window, or so many bytes at the front of the scratch.
#[derive(Clone, Copy, Debug, PartialEq, Eq)]
pub enum Full {
    Window(Extent),
    Scratch(usize),
}
