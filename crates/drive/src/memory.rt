// The memory that readers and sets are lent: a window and a table; and a set's bytes, two marks for each record, and
// its ends. Each call takes the fronts that it names.
use crate::script::{ENDS, MARKS, ROOM};
use crate::sets::Last;
use set::SetRef;

#[derive(Drop)]
pub(crate) struct Memory {
    pub(crate) window: [u8; ROOM],
    pub(crate) table: [usize; ENDS],
    pub(crate) bytes: [u8; ROOM],
    pub(crate) marks: [usize; MARKS],
    pub(crate) ends: [usize; ENDS],
}

impl Memory {
    pub(crate) fn new() -> Memory {
        Memory {
            window: [0; ROOM],
            table: [0; ENDS],
            bytes: [0; ROOM],
            marks: [0; MARKS],
            ends: [0; ENDS],
        }
    }

    // The last set, over what it was lent.
    pub(crate) fn held(&self, last: Last) -> SetRef<'_> {
        SetRef {
            set: last.set,
            bytes: last.sizes.bytes.front(&self.bytes),
            marks: last.sizes.marks.front(&self.marks),
            ends: last.sizes.ends.front(&self.ends),
        }
    }
}
