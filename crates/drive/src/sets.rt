// The calls about record sets: a read of a set, and views, writers and positions of the last set's records. Each read
// lends the fronts of the set's arrays that it names, and the last set goes by the lengths of those fronts.
use crate::calls::Sizes;
use crate::memory::Memory;
use crate::run::Run;
use crate::script::Length;
use set::{Filled, Set, next_set};
use window::InputOffset;

// The last set, and what it was lent.
#[derive(Clone, Copy)]
pub(crate) struct Last {
    pub(crate) set: Set,
    pub(crate) sizes: Sizes,
}

const EMPTY: Set = Set {
    filled: 0,
    count: 0,
    line: 1,
    base: InputOffset(0),
};

impl Last {
    // Before any read of a set there is an empty one, which was lent nothing.
    pub(crate) fn none() -> Last {
        let sizes = Sizes {
            bytes: Length::ZERO,
            marks: Length::ZERO,
            ends: Length::ZERO,
        };
        Last { set: EMPTY, sizes }
    }

    // The set that a read is handed: the last one where it lies in what is lent now, else an empty one, since other
    // slices are another set's.
    fn handed(self, bytes: &[u8], marks: &[usize]) -> Set {
        if self.set.is_sound(bytes.len(), marks.len()) {
            return self.set;
        }
        EMPTY
    }
}

impl Run<'_> {
    // A record takes two marks. Refusal 11 changes nothing, so that the set before stays.
    pub(crate) fn read_set(&mut self, sizes: Sizes) {
        let Memory {
            window,
            table,
            bytes,
            marks,
            ends,
        } = &mut *self.memory;
        let window = self.setup.window.front_mut(window);
        let table = self.setup.table.front_mut(table);
        let bytes = sizes.bytes.front_mut(bytes);
        let marks = sizes.marks.front_mut(marks);
        let ends = sizes.ends.front_mut(ends);
        let given = self.last.handed(bytes, marks);
        let next = next_set(self.reader, window, table, given, bytes, marks, ends);
        self.reader = next.reader;
        if !matches!(next.answer, Filled::State) {
            self.last = Last {
                set: next.set,
                sizes,
            };
        }
        self.filled(next.answer);
    }

    // What a read of a set answers.
    fn filled(&mut self, answer: Filled) {
        match answer {
            Filled::Ask(ask) => self.asked(ask),
            Filled::Records { count, filled } => self
                .out
                .line(format_args!("set {count} {filled}")),
            Filled::End => self.out.line("end"),
            Filled::Start { line, byte } => self.out.line(format_args!("refused 2 {line} {byte}")),
            Filled::Window(place) => self.out.place("refused 3", place),
            Filled::Table(place) => self.out.place("refused 4", place),
            Filled::Place => self.out.line("refused 5"),
            Filled::State => self.out.line("refused 11"),
            Filled::Room => self.out.line("refused 12"),
        }
    }

    pub(crate) fn position_held(&mut self, i: usize) {
        let held = self.memory.held(self.last);
        match held
            .set
            .position(held.bytes.len(), held.marks, held.ends.len(), i)
        {
            Ok(place) => self.out.place("at", place),
            Err(refusal) => self.out.refusal(refusal),
        }
    }
}
