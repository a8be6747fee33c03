// One read (01, "The window and its refills"): by where the reader stands, an ask, a record, the end, or a refusal.
ghost use Rattle.std.specs.Prelude.{◌≡◌, ℕ, List};
ghost use Rattle.reader.specs.State.{Good, Sane, rising};
ghost use Rattle.reader.specs.Read.{
  did,
  read_in,
  led,
  led_to,
  lead_on,
  LeadIn,
  begins_at,
  passed,
  sought_at,
  onward,
  when_ready,
  behind,
  NextIs,
};

use crate::state::{Answer, Mark, Next, Phase, Reader};
use scan::Blank;

// `Good` is asked of each step: it speaks of both slices' lengths, and a ghost field beside a `&mut` is not covered.
impl Reader {
    // The next record, or what stands in its way.
    #[tactic(auto, using(crate::proofs::Sanity::sanity), unfolding(crate::specs::Read::read_of))]
    pub fn next(self, window: &mut [u8], ends: &mut [usize]) -> Next
        ensures { NextIs self window.old ends.old result window.new ends.new }
    {
        if !self.is_lent(window.len(), ends.len()) {
            return self.answers(self.phase, Answer::State);
        }
        if self.fill.asking && !self.phase.is_lasting() {
            return self.answers(self.phase, Answer::Ask(self.fill.ask()));
        }
        self.read_in(window, ends)
    }

    // A read by the phase, no ask being open but in one that lasts.
    fn read_in(self, window: &mut [u8], ends: &mut [usize]) -> Next
        requires { Good self window.old ends.old }
        ensures { did result window.new ends.new ≡ read_in self.phase self window.old ends.old }
    {
        let phase = self.phase;
        match phase {
            Phase::Lead => self.lead(window, ends),
            Phase::Sought => self.sought(window, ends),
            Phase::Searching | Phase::Ahead => self.search_on(window, ends),
            Phase::Current => self.behind(window, ends),
            Phase::Ended | Phase::Over => self.answers(phase, Answer::End),
            Phase::Window => self.answers(phase, Answer::Window(self.place())),
            Phase::Table => self.answers(phase, Answer::Table(self.place())),
            Phase::Astray => self.answers(phase, Answer::Place),
        }
    }

    // Before the first record: blank lines are passed, and a `>` must follow.
    #[tactic(auto, unfolding(crate::specs::Read::led))]
    fn lead(self, window: &mut [u8], ends: &mut [usize]) -> Next
        requires { Good self window.old ends.old }
        ensures { did result window.new ends.new ≡ when_ready led self window.old ends.old }
    {
        if !self.fill.is_ready() {
            return self.ask();
        }
        let blank = scan::lead(&window[..self.fill.filled], self.mark.start.0);
        self.lead_to(blank, window, ends)
    }

    // What follows the blank lines.
    #[tactic(auto, unfolding(crate::specs::Read::led_to))]
    fn lead_to(self, blank: Blank, window: &mut [u8], ends: &mut [usize]) -> Next
        requires { (Good self window.old ends.old) × (LeadIn blank self) }
        ensures { did result window.new ends.new ≡ led_to blank self window.old ends.old }
    {
        if blank.undecided {
            return self.lead_on(blank, window);
        }
        let line = self.mark.line + blank.lines as u64;
        match window[blank.at] {
            b'>' => self.begin(blank.at, line).hunt(window, ends),
            byte => self.answers(Phase::Over, Answer::Start { line, byte }),
        }
    }

    // Nothing but blank lead is there: the input is over, or the lead is dropped.
    #[tactic(auto, unfolding(window::specs::Fill::slid))]
    fn lead_on(self, blank: Blank, window: &mut [u8]) -> Next
        requires { (Sane self) × (LeadIn blank self) }
        ensures { (e : List ℕ) → did result window.new e ≡ lead_on blank self window.old e }
    {
        if self.fill.told {
            return self.answers(Phase::Over, Answer::End);
        }
        let fill = self.fill.slide(window, blank.at);
        let mark = Mark::new(0, self.mark.line + blank.lines as u64);
        Reader { fill, mark, ..self }.ask()
    }

    // After a seek: a `>` must stand at the place sought.
    #[tactic(auto, unfolding(crate::specs::Read::sought_at))]
    fn sought(self, window: &mut [u8], ends: &mut [usize]) -> Next
        requires { Good self window.old ends.old }
        ensures { did result window.new ends.new ≡ when_ready sought_at self window.old ends.old }
    {
        if !self.fill.is_ready() {
            return self.ask();
        }
        let start = self.mark.start.0;
        if start < self.fill.filled && window[start] == b'>' {
            return self.begin(start, self.mark.line).hunt(window, ends);
        }
        self.answers(Phase::Astray, Answer::Place)
    }

    // A record is searched on, if its recorded ends rise. Where a set ended before it, it is shown no longer.
    #[tactic(auto, unfolding(crate::specs::Read::searched_on, crate::specs::State::ends_rise))]
    fn search_on(self, window: &mut [u8], ends: &mut [usize]) -> Next
        requires { Good self window.old ends.old }
        ensures { did result window.new ends.new ≡ onward self window.old ends.old }
    {
        let next = Reader {
            phase: Phase::Searching,
            ..self
        };
        if !self.fill.is_ready() {
            return next.ask();
        }
        if !are_rising(
            self.mark.start.0,
            &ends[..self.mark.count],
            self.fill.filled,
        ) {
            return self.answers(self.phase, Answer::State);
        }
        next.hunt(window, ends)
    }

    // Behind a current record: the end, or the next record.
    #[tactic(auto, unfolding(crate::specs::Read::behind))]
    fn behind(self, window: &mut [u8], ends: &mut [usize]) -> Next
        requires { Good self window.old ends.old }
        ensures { did result window.new ends.new ≡ behind self window.old ends.old }
    {
        if self.fill.told && self.mark.search.0 == self.fill.filled {
            return self.answers(Phase::Ended, Answer::End);
        }
        let next = self.pass();
        if !next.fill.is_ready() {
            return next.ask();
        }
        next.hunt(window, ends)
    }

    // The record behind a current one begins where the search stopped, on the line behind its lines.
    pub(crate) fn pass(self) -> Reader
        requires { Sane self }
        ensures { result ≡ passed self }
    {
        self.begin(self.mark.search.0, self.mark.line + self.mark.count as u64)
    }

    // A record begins at a place of the window, on a line.
    fn begin(self, start: usize, line: u64) -> Reader
        ensures { result ≡ begins_at start line self }
    {
        Reader {
            mark: Mark::new(start, line),
            phase: Phase::Searching,
            ..self
        }
    }
}

// lo < e0 < e1 < .. ≤ hi
#[tactic(auto, using(crate::proofs::Rising::rising_steps))]
pub(crate) fn are_rising(lo: usize, ends: &[usize], hi: usize) -> bool
    ensures { result ≡ rising lo ends.now hi }
{
    let mut last = lo;
    for &end in ends {
        if end <= last || hi < end {
            return false;
        }
        last = end;
    }
    true
}
