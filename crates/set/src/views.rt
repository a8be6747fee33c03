// Views of a set's record by its number (01, module 6), in the bytes and the two tables that the set was given: those
// of the filled bytes and of the record's own ends. A number not below the set's count is refused with 7, a set that
// does not lie in the slices with 11.
ghost use Rattle.set.specs.Views.{Of, RecordAt, Head, Id, Desc, Seq, Line, LinesOf, FullSeq};

use crate::state::Set;
use reader::RecordError;
use view::{Full, FullError, Record, View};

// A set with the bytes and the two tables that it was given.
#[derive(Clone, Copy, Debug, PartialEq, Eq)]
pub struct SetRef<'a> {
    pub set: Set,
    pub bytes: &'a [u8],
    pub marks: &'a [usize],
    pub ends: &'a [usize],
}

impl<'a> SetRef<'a> {
    // Record i as it stands in the filled bytes.
    #[tactic(auto, unfolding(crate::specs::Set::record_of, crate::specs::Set::sound))]
    pub fn record(self, i: usize) -> Result<Record<'a, 'a>, RecordError>
        ensures { Of RecordAt self.entry i result }
    {
        let held = self
            .set
            .record(self.bytes.len(), self.marks, self.ends.len(), i)?;
        Ok(Record {
            bytes: &self.bytes[..held.filled],
            start: held.start,
            ends: &self.ends[held.from..held.to],
        })
    }

    // Its head.
    pub fn head(self, i: usize) -> View
        ensures { Of Head self.entry i result }
    {
        self.record(i)?.head()
    }

    // Its id.
    pub fn id(self, i: usize) -> View
        ensures { Of Id self.entry i result }
    {
        self.record(i)?.id()
    }

    // Its description, or none.
    pub fn desc(self, i: usize) -> View
        ensures { Of Desc self.entry i result }
    {
        self.record(i)?.desc()
    }

    // Its raw sequence.
    pub fn seq(self, i: usize) -> View
        ensures { Of Seq self.entry i result }
    {
        self.record(i)?.seq()
    }

    // Its sequence line n, or refusal 8.
    pub fn line(self, i: usize, n: usize) -> View
        ensures { Of Line self.entry i n result }
    {
        self.record(i)?.line(n)
    }

    // The number of its sequence lines.
    pub fn lines(self, i: usize) -> Result<usize, RecordError>
        ensures { Of LinesOf self.entry i result }
    {
        Ok(self.record(i)?.lines())
    }

    // Its full sequence: a part of the bytes, or the front of the scratch, or refusal 9.
    pub fn full_seq(self, i: usize, scratch: &mut [u8]) -> Result<Full, FullError>
        ensures { Of FullSeq self.entry i scratch.old result scratch.new }
    {
        self.record(i)?.full_seq(scratch)
    }
}
