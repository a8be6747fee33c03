// A set's record by its number (01, module 6; refusals 11 and 7): where its parts stand in the lent slices, and its
// position in the input.
ghost use Rattle.std.specs.Prelude.{◌≡◌, ◌+◌, ◌<◌, length};
ghost use Rattle.set.specs.Set.{ends_before, ends_to, start_of};
ghost use Rattle.set.specs.Record.{IsSound, RecordIs, PositionIs, placed_by, placed};

use crate::state::Set;
use reader::{Position, RecordError};
use window::{WindowOffset, to_input};

// Where a set's record stands: its start, the filled bytes, and its ends, from one number up to another.
#[derive(Clone, Copy, Debug, PartialEq, Eq)]
pub struct Held {
    pub start: usize,
    pub filled: usize,
    pub from: usize,
    pub to: usize,
}

impl Set {
    // Refusal 11 is not due for the set's own numbers, over bytes and marks of these lengths. A record has two marks.
    #[tactic(auto, unfolding(crate::specs::Set::sound))]
    pub fn is_sound(self, bytes: usize, marks: usize) -> bool
        ensures { IsSound self bytes marks result }
    {
        self.filled <= bytes && self.count <= marks / 2
    }

    // The set's record i, over bytes and a table of ends of these lengths.
    #[tactic(auto, unfolding(crate::specs::Set::record_of, crate::specs::Set::sound))]
    pub fn record(
        self,
        bytes: usize,
        marks: &[usize],
        ends: usize,
        i: usize,
    ) -> Result<Held, RecordError>
        ensures { RecordIs self bytes marks.now ends i result }
    {
        if !self.is_sound(bytes, marks.len()) {
            return Err(RecordError::State);
        }
        if self.count <= i {
            return Err(RecordError::NoRecord);
        }
        let from = ends_before(marks, i);
        let to = ends_to(marks, i);
        if to <= from || ends < to {
            return Err(RecordError::State);
        }
        Ok(Held {
            start: start_of(marks, i),
            filled: self.filled,
            from,
            to,
        })
    }

    // Its position. Its line is as many behind the set's own as the records before it have ends.
    pub fn position(
        self,
        bytes: usize,
        marks: &[usize],
        ends: usize,
        i: usize,
    ) -> Result<Position, RecordError>
        ensures { PositionIs self bytes marks.now ends i result }
    {
        let held = self.record(bytes, marks, ends, i)?;
        self.place(held.start, held.from)
    }

    // The position of a record that starts there, with so many ends before it. A sum that stops at the largest number
    // is beyond every input.
    #[tactic(auto, unfolding(crate::specs::Record::placed, reader::specs::Calls::misplaced))]
    fn place(self, start: usize, before: usize) -> Result<Position, RecordError>
        ensures { placed_by result ≡ placed (self.line + before) (self.base.0 + start) }
    {
        let place = Position {
            line: self.line.saturating_add(before as u64),
            byte: to_input(self.base, WindowOffset(start)),
        };
        if place.is_misplaced() {
            return Err(RecordError::State);
        }
        Ok(place)
    }
}

// How many ends the records before number i have. That the table has record i's two marks is a fact of the table and i
// together, which each of the three takes from `Set::record`; no value holds both. The first record has none before
// it, by the same two cases as in the definition.
fn ends_before(marks: &[usize], i: usize) -> usize
    requires { i + i + 1 < length marks.now }
    ensures { result ≡ ends_before marks.now i }
{
    if i == 0 { 0 } else { ends_to(marks, i - 1) }
}

// How many there are up to its last.
fn ends_to(marks: &[usize], i: usize) -> usize
    requires { i + i + 1 < length marks.now }
    ensures { result ≡ ends_to marks.now i }
{
    marks[i + i + 1]
}

fn start_of(marks: &[usize], i: usize) -> usize
    requires { i + i + 1 < length marks.now }
    ensures { result ≡ start_of marks.now i }
{
    marks[i + i]
}
