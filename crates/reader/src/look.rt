// What a record set goes by (01, module 6): the record behind the current one as it stands in the filled bytes, and a
// record that is to be found again.
ghost use Rattle.std.specs.Prelude.{◌≡◌};
ghost use Rattle.reader.specs.State.{Good, in_phase};
ghost use Rattle.reader.specs.Look.{looked, looks_on, looks_behind, LookIs, PutBackIs};

use crate::error::RecordError;
use crate::state::{Look, Mark, Phase, Reader, Sight};
use scan::Stop;

// `Good` is asked of each step, for the reason that read.rt gives.
impl Reader {
    // The record behind the current one, if it is whole in the filled bytes. Nothing is asked for, and nothing moves.
    #[tactic(auto, using(crate::proofs::Sanity::sanity), unfolding(crate::specs::Look::look_of))]
    pub fn look(self, window: &[u8], ends: &mut [usize]) -> Look
        ensures { LookIs self window.now ends.old result ends.new }
    {
        if !self.is_lent(window.len(), ends.len()) {
            return self.sees(self.phase, Err(RecordError::State));
        }
        if !self.phase.is_current() {
            return self.sees(self.phase, Err(RecordError::NoRecord));
        }
        self.look_behind(window, ends)
    }

    // The current record is to be found again by the next call.
    #[tactic(auto, unfolding(crate::specs::Look::put_back_of))]
    pub fn put_back(self) -> Reader
        ensures { PutBackIs self result }
    {
        if !self.is_sane() || !self.phase.is_current() {
            return self;
        }
        Reader {
            mark: Mark::new(self.mark.start.0, self.mark.line),
            phase: Phase::Ahead,
            ..self
        }
    }

    // Behind a current record: the end, or what is there of the next record.
    #[tactic(auto, unfolding(crate::specs::Look::looks_behind))]
    fn look_behind(self, window: &[u8], ends: &mut [usize]) -> Look
        requires { Good self window.now ends.old }
        ensures { looked result ends.new ≡ looks_behind self window.now ends.old }
    {
        if self.fill.told && self.mark.search.0 == self.fill.filled {
            return self.sees(Phase::Over, Ok(Sight::Over));
        }
        let next = self.pass();
        if !next.fill.is_ready() {
            return next.sees(Phase::Ahead, Ok(Sight::Unfinished));
        }
        next.look_on(window, ends)
    }

    // A record is searched in the filled bytes; where it is not whole in them, it is left to the next call with what
    // was found of it.
    #[tactic(auto, using(crate::proofs::FoundLaws::founds))]
    fn look_on(self, window: &[u8], ends: &mut [usize]) -> Look
        requires { Good self window.now ends.old }
        ensures { looked result ends.new ≡ looks_on self window.now ends.old }
    {
        let (reader, stop) = self.find(window, ends);
        match stop {
            Stop::Record => reader.sees(Phase::Current, Ok(Sight::Whole(reader.place()))),
            Stop::Full | Stop::Filled => reader.sees(Phase::Ahead, Ok(Sight::Unfinished)),
        }
    }

    // What a look sees, with which the reader comes to a phase.
    fn sees(self, phase: Phase, sight: Result<Sight, RecordError>) -> Look
        ensures { result ≡ record { reader = in_phase phase self; sight = sight } }
    {
        Look {
            reader: Reader { phase, ..self },
            sight,
        }
    }
}
