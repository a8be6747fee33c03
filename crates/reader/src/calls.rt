// Setup, reports, seeks and positions.
ghost use Rattle.std.specs.Prelude.{◌≡◌, ◌≤◌, ◌&&◌, length};
ghost use Rattle.window.specs.Fill.{most};
ghost use Rattle.reader.specs.State.{sane, lent_as, position_of, byte_of};
ghost use Rattle.reader.specs.Calls.{NewIs, ReportIs, SeekIs, PositionIs, CurrentIs, misplaced};

use crate::error::{RecordError, ReportError, SeekError, SetupError, StateError};
use crate::state::{Current, Mark, Phase, Position, Reader, Reported, Sought};
use growth::Policy;
use window::{Fill, InputOffset, WindowOffset, to_input, to_window};

impl Reader {
    // The least capacity, and the one that serves most inputs.
    pub const MIN: usize = 3;

    pub const DEFAULT: usize = 65536;

    // The longest window.
    pub const MOST_WINDOW: usize = 1 << 31;

    // A reader of an input from its first byte on, over the window and the table that are shown, or refusal 1.
    #[tactic(auto, unfolding(crate::specs::Calls::setup_of, crate::specs::Calls::setup_refused))]
    pub fn new(
        capacity: usize,
        policy: Policy,
        window: &[u8],
        ends: &[usize],
    ) -> Result<Reader, SetupError>
        ensures { NewIs capacity policy (length window.now) (length ends.now) result }
    {
        let lent = window.len();
        let slots = ends.len();
        if capacity < Reader::MIN || lent < capacity || Reader::MOST_WINDOW < lent || slots == 0 {
            return Err(SetupError);
        }
        Ok(Reader {
            fill: Fill::new(capacity, policy, lent),
            mark: Mark::new(0, 1),
            slots,
            phase: Phase::Lead,
        })
    }

    // The caller reports that it put `count` bytes into the room that was asked for; 0 tells the end.
    #[tactic(auto, unfolding(crate::specs::Calls::report_of))]
    pub fn report(self, count: usize) -> Reported
        ensures { ReportIs count self result }
    {
        if !self.is_sane() {
            return Reported {
                reader: self,
                answer: Err(ReportError::State),
            };
        }
        match self.fill.report(count) {
            Some(fill) => Reported {
                reader: Reader { fill, ..self },
                answer: Ok(()),
            },
            None => Reported {
                reader: self,
                answer: Err(ReportError::Count),
            },
        }
    }

    // The next read takes the input from a position on.
    #[tactic(auto, unfolding(crate::specs::Calls::seek_of))]
    pub fn seek(self, to: Position) -> Sought
        ensures { SeekIs to self result }
    {
        if !self.is_sane() {
            return Sought {
                reader: self,
                answer: Err(SeekError::State),
            };
        }
        if to.is_misplaced() {
            return Sought {
                reader: self,
                answer: Err(SeekError::Place),
            };
        }
        let (fill, at) = if self.fill.holds(to.byte) {
            (self.fill.asking(false), to_window(self.fill.base, to.byte))
        } else {
            (self.fill.empty_at(to.byte), WindowOffset(0))
        };
        Sought {
            reader: Reader {
                fill,
                mark: Mark::new(at.0, to.line),
                phase: Phase::Sought,
                ..self
            },
            answer: Ok(()),
        }
    }

    // The place of the current or refused record, and after the end that of the last one given; `None` where there is
    // none.
    #[tactic(auto, using(crate::proofs::Sanity::sanity), unfolding(crate::specs::Calls::place_of))]
    pub fn position(self) -> Result<Option<Position>, StateError>
        ensures { PositionIs self result }
    {
        if !self.is_sane() {
            return Err(StateError);
        }
        let at = self.place();
        Ok(match self.phase {
            Phase::Current | Phase::Ended | Phase::Window | Phase::Table | Phase::Ahead => Some(at),
            Phase::Lead | Phase::Sought | Phase::Searching | Phase::Over | Phase::Astray => None,
        })
    }

    // The current record, over a window and a table of these lengths.
    #[tactic(auto, unfolding(crate::specs::Calls::current_of))]
    pub fn current(self, window: usize, ends: usize) -> Result<Current, RecordError>
        ensures { CurrentIs window ends self result }
    {
        if !self.is_lent(window, ends) {
            return Err(RecordError::State);
        }
        if !self.phase.is_current() {
            return Err(RecordError::NoRecord);
        }
        Ok(Current {
            start: self.mark.start.0,
            filled: self.fill.filled,
            count: self.mark.count,
        })
    }

    // Refusal 11 is not due over a window and a table of these lengths, but for the ends.
    #[tactic(auto, unfolding(crate::specs::State::lent_as))]
    pub fn is_lent(self, window: usize, ends: usize) -> bool
        ensures { result ≡ (sane self && lent_as self window ends) }
    {
        self.is_sane() && self.fill.lent == window && self.slots == ends
    }

    // The record's position.
    pub(crate) fn place(self) -> Position
        requires { byte_of self ≤ most }
        ensures { result ≡ position_of self }
    {
        Position {
            line: self.mark.line,
            byte: to_input(self.fill.base, self.mark.start),
        }
    }

    // Refusal 11 is not due, but for the lent lengths and the ends.
    #[tactic(auto, unfolding(crate::specs::State::sane))]
    pub(crate) fn is_sane(self) -> bool
        ensures { result ≡ sane self }
    {
        let fill = self.fill;
        let Mark {
            start: WindowOffset(start),
            search: WindowOffset(search),
            count,
            line,
        } = self.mark;
        Reader::MIN <= fill.capacity
            && fill.is_sound()
            && start <= search
            && search <= fill.filled
            && count <= self.slots
            && count <= search - start
            && (!self.phase.is_current() || 1 <= count)
            && 1 <= line
            && line <= fill.base.0 + start as u64 + 1
    }
}

impl Position {
    // A seek's refusal 5: line 0, a line above byte + 1, a byte above 2^62.
    #[tactic(auto, unfolding(crate::specs::Calls::misplaced))]
    pub fn is_misplaced(self) -> bool
        ensures { result ≡ misplaced self.line self.byte.0 }
    {
        self.line == 0 || self.byte.0 < self.line - 1 || InputOffset::MOST < self.byte.0
    }
}
