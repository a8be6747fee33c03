// Gathering a set's records (01, module 6): a look at each record behind the first as long as it is whole in the window
// and fits the set's tables, and what the tables are given of it.
ghost use Rattle.std.specs.Prelude.{◌≡◌};
ghost use Rattle.set.specs.Read.{has_room, put_if, gather_all, gathered_in};

use crate::copies::copy_front;
use reader::{Reader, Sight};

// A set's tables, and how many records and ends they have so far.
#[derive(Drop)]
pub(crate) struct Tables<'a> {
    pub(crate) marks: &'a mut [usize],
    pub(crate) ends: &'a mut [usize],
    pub(crate) count: usize,
    pub(crate) used: usize,
}

impl<'a> Tables<'a> {
    // The records behind the first, as long as one is whole in the filled bytes and fits.
    pub(crate) fn gather(&mut self, first: Reader, window: &[u8], table: &mut [usize]) -> Reader
        ensures same_marks { self.new.marks.ghost_name ≡ self.old.marks.ghost_name }
        ensures same_ends { self.new.ends.ghost_name ≡ self.old.ends.ghost_name }
        ensures gathers { gathered_in result table.new self.new
            ≡ gather_all window.now (gathered_in first table.old self.old) }
    {
        // Each turn needs the reader that the turn before left, and what stands behind is known by a look alone.
        let mut reader = first;
        loop {
            let look = reader.look(window, table);
            reader = look.reader;
            let Ok(Sight::Whole(_)) = look.sight else {
                return reader;
            };
            if !self.put(reader, table) {
                return reader.put_back();
            }
        }
    }

    // The current record goes behind the others, if there is room for it: its start, the number of the ends up to its
    // last, and its ends. A sum that stops at the largest number is above the length of every table. Whether there was
    // room is all that there is to answer.
    #[tactic(auto, using(crate::proofs::Gathering::half_is))]
    pub(crate) fn put(&mut self, reader: Reader, table: &[usize]) -> bool
        ensures same_marks { self.new.marks.ghost_name ≡ self.old.marks.ghost_name }
        ensures same_ends { self.new.ends.ghost_name ≡ self.old.ends.ghost_name }
        ensures fits { result ≡ has_room (gathered_in reader table.now self.old) }
        ensures put { gathered_in reader table.now self.new
            ≡ put_if result (gathered_in reader table.now self.old) }
    {
        let to = self.used.saturating_add(reader.mark.count);
        if self.marks.len() / 2 <= self.count || self.ends.len() < to {
            return false;
        }
        let at = self.count + self.count;
        self.marks[at] = reader.mark.start.0;
        self.marks[at + 1] = to;
        copy_front(table, reader.mark.count, self.ends, self.used);
        self.count += 1;
        self.used = to;
        true
    }
}
