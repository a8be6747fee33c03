// The fill of a window: what it holds, and what a caller is asked for and reports.
ghost use Rattle.std.specs.Prelude.{◌≡◌, ◌+◌, ◌-◌, ltb};
ghost use Rattle.window.specs.Fill.{most, New, IsSound, IsReady, AskFor, Asking, Reports, Slide, Grow, Holds, EmptyAt};

use crate::offset::{InputOffset, WindowOffset, to_input, to_window};
use growth::Policy;

// The first `filled` bytes of the window hold the input from `base` on. `told`: the end was told. `asking`: an ask is
// open. `lent`: the window's length at setup. The two are flags, as 01 has them: `Sound`, refusal 11's part here, is
// stated over each alone.
#[derive(Clone, Copy, Debug, PartialEq, Eq)]
pub struct Fill {
    pub capacity: usize,
    pub filled: usize,
    pub base: InputOffset,
    pub told: bool,
    pub asking: bool,
    pub lent: usize,
    pub policy: Policy,
}

// What is asked for: `room` bytes of the input from `offset` on, to be put into the window at `place`.
#[derive(Clone, Copy, Debug, PartialEq, Eq)]
pub struct Ask {
    pub place: WindowOffset,
    pub room: usize,
    pub offset: InputOffset,
}

impl Fill {
    pub fn new(capacity: usize, policy: Policy, lent: usize) -> Fill
        ensures { New capacity policy lent result }
    {
        Fill {
            capacity,
            filled: 0,
            base: InputOffset(0),
            told: false,
            asking: false,
            lent,
            policy,
        }
    }

    // The window's part of refusal 11, but for the length that is lent now.
    pub fn is_sound(self) -> bool
        ensures { IsSound self result }
    {
        self.filled <= self.capacity
            && self.capacity <= self.lent
            && (!self.asking || self.filled < self.capacity)
            && !self.passes(0)
    }

    // Filled to its capacity, or the end was told.
    pub fn is_ready(self) -> bool
        ensures { IsReady self result }
    {
        self.told || self.filled == self.capacity
    }

    // What an ask asks for.
    pub fn ask(self) -> Ask
        ensures { AskFor self result }
    {
        let place = WindowOffset(self.filled);
        Ask {
            place,
            room: self.room(),
            offset: to_input(self.base, place),
        }
    }

    // An ask is open, or none is: the flag is set, and chooses no step.
    pub fn asking(self, is_open: bool) -> Fill
        ensures { Asking is_open self result }
    {
        Fill {
            asking: is_open,
            ..self
        }
    }

    // The caller reports `count` bytes; 0 tells the end. None where the report is refused.
    pub fn report(self, count: usize) -> Option<Fill>
        ensures { Reports count self result }
    {
        if !self.asking || self.room() < count || self.passes(count) {
            return None;
        }
        let told = self.told || count == 0;
        Some(Fill {
            filled: self.filled + count,
            told,
            asking: false,
            ..self
        })
    }

    // The first n bytes are dropped: those behind them move to the front, and bytes behind the moved part stay.
    pub fn slide(self, window: &mut [u8], n: usize) -> Fill
        ensures { Slide n self window.old result window.new }
    {
        if self.filled < n || self.passes(0) {
            return self;
        }
        scan::move_down(window, n, self.filled);
        Fill {
            filled: self.filled - n,
            base: to_input(self.base, WindowOffset(n)),
            ..self
        }
    }

    // With the capacity that the policy names next, if it names one.
    pub fn grow(self) -> Option<Fill>
        ensures { Grow self result }
    {
        let capacity = self.policy.grow_to(self.capacity, self.lent)?;
        Some(Fill { capacity, ..self })
    }

    // The window holds a place of the input.
    pub fn holds(self, at: InputOffset) -> bool
        ensures { Holds at.0 self result }
    {
        self.base <= at && to_window(self.base, at).0 < self.filled
    }

    // Emptied, to be filled from a place of the input on; the end is forgotten.
    pub fn empty_at(self, at: InputOffset) -> Fill
        ensures { EmptyAt at.0 self result }
    {
        Fill {
            filled: 0,
            base: at,
            told: false,
            asking: false,
            ..self
        }
    }

    // How many bytes the capacity has room for.
    fn room(self) -> usize
        ensures { result ≡ self.capacity - self.filled }
    {
        self.capacity.saturating_sub(self.filled)
    }

    // With `count` bytes more the input would go past its most.
    fn passes(self, count: usize) -> bool
        ensures { result ≡ ltb most (self.base.0 + self.filled + count) }
    {
        let end = to_input(self.base, WindowOffset(self.filled));
        to_input(end, WindowOffset(count)).0 > InputOffset::MOST
    }
}
