// Searching a record, and making room for it (01, "The window and its refills").
ghost use Rattle.std.specs.Prelude.{◌≡◌, ◌+◌, ◌≤◌, true, length};
ghost use Rattle.scan.specs.declared.ends.Stop.TheVariants.{Filled};
ghost use Rattle.window.specs.Fill.{most, asking};
ghost use Rattle.reader.specs.State.{Good, byte_of, with_fill, in_phase};
ghost use Rattle.reader.specs.Read.{said_by, did, ask_for, makes_room, hunted};
ghost use Rattle.reader.specs.Read.{SearchIs, reached, found, found_in, closed_to};

use crate::state::{Answer, Mark, Next, Phase, Reader};
use scan::{Searched, Stop};
use window::WindowOffset;

// `Good` is asked of each step, for the reason that read.rt gives.
impl Reader {
    // The record is searched from where the last search stopped, and is given, refused, or wants more of the input.
    #[tactic(auto, using(crate::proofs::FoundLaws::founds))]
    pub(crate) fn hunt(self, window: &mut [u8], ends: &mut [usize]) -> Next
        requires { Good self window.old ends.old }
        ensures { did result window.new ends.new ≡ hunted self window.old ends.old }
    {
        if self.fill.told && self.mark.start.0 == self.fill.filled {
            return self.answers(Phase::Over, Answer::End);
        }
        let (reader, stop) = self.find(window, ends);
        match stop {
            Stop::Record => reader.answers(Phase::Current, Answer::Record(reader.place())),
            Stop::Full => reader.answers(Phase::Table, Answer::Table(reader.place())),
            Stop::Filled => reader.make_room(window, ends),
        }
    }

    // The record is searched on in the filled bytes, and where the input ends with them, the end closes it.
    // Inlined, since both callers take the reader that it answers apart again: handed over in memory, a set of tiny
    // records takes a sixth more.
    #[inline(always)]
    pub(crate) fn find(self, window: &[u8], ends: &mut [usize]) -> (Reader, Stop)
        requires { Good self window.now ends.old }
        ensures found { found result ends.new ≡ found_in self window.now ends.old }
        ensures place { byte_of result.0 ≤ most }
        ensures going { result.1 ≡ Filled → Good result.0 window.now ends.new }
    {
        let found = self.search_in(window, ends);
        self.reach(found.at, found.count).close(found.stop, ends)
    }

    // The record is searched behind its `>`, from where the last search stopped, in the filled bytes.
    fn search_in(self, window: &[u8], ends: &mut [usize]) -> Searched
        requires { Good self window.now ends.old }
        ensures { SearchIs self window.now ends.old result ends.new }
    {
        let filled = self.fill.filled;
        let from = self.mark.search.0.max(self.mark.start.0 + 1).min(filled);
        scan::search(
            &window[..filled],
            ends,
            from,
            self.mark.count,
            self.slots,
            b'>',
        )
    }

    // A search came to `search` with `count` ends recorded.
    fn reach(self, search: usize, count: usize) -> Reader
        ensures { result ≡ reached search count self }
    {
        let mark = Mark {
            search: WindowOffset(search),
            count,
            ..self.mark
        };
        Reader { mark, ..self }
    }

    // A read's answer, with which the reader comes to a phase. What a look sees is of another type, and by `sees`.
    pub(crate) fn answers(self, phase: Phase, answer: Answer) -> Next
        ensures { result ≡ record { reader = in_phase phase self; answer = answer } }
    {
        Next {
            reader: Reader { phase, ..self },
            answer,
        }
    }

    // The told end closes the record where the search stopped; without a slot for that end, the table is full.
    fn close(self, stop: Stop, ends: &mut [usize]) -> (Reader, Stop)
        requires { self.slots ≡ length ends.old }
        ensures { found result ends.new ≡ closed_to stop self ends.old }
    {
        let (Stop::Filled, true) = (stop, self.fill.told) else {
            return (self, stop);
        };
        let count = self.mark.count;
        if self.slots <= count {
            return (self, Stop::Full);
        }
        ends[count] = self.mark.search.0;
        (self.reach(self.fill.filled, count + 1), Stop::Record)
    }

    // The window is full and the record unfinished: it is moved to the front, or the window grows.
    #[tactic(auto, unfolding(crate::specs::Read::makes_room))]
    fn make_room(self, window: &mut [u8], ends: &mut [usize]) -> Next
        requires { Good self window.old ends.old }
        ensures { did result window.new ends.new ≡ makes_room self window.old ends.old }
    {
        let start = self.mark.start.0;
        if 0 < start {
            let fill = self.fill.slide(window, start);
            scan::move_ends(ends, self.mark.count, start);
            let mark = Mark {
                start: WindowOffset(0),
                search: WindowOffset(self.mark.search.0 - start),
                ..self.mark
            };
            return Reader { fill, mark, ..self }.ask();
        }
        match self.fill.grow() {
            Some(fill) => Reader { fill, ..self }.ask(),
            None => self.answers(Phase::Window, Answer::Window(self.place())),
        }
    }

    // An ask is opened.
    pub(crate) fn ask(self) -> Next
        requires { self.fill.base.0 + self.fill.filled ≤ most }
        ensures answer { said_by result.answer ≡ ask_for self }
        ensures reader { result.reader ≡ with_fill (asking true self.fill) self }
    {
        let fill = self.fill.asking(true);
        Next {
            reader: Reader { fill, ..self },
            answer: Answer::Ask(self.fill.ask()),
        }
    }
}
