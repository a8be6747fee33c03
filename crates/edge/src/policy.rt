// Growth and the setup test. A policy comes as the number of its kind with n and limit beside it, and a setup as
// numbers, since C calls them so.
ghost use Rattle.edge.specs.Edge.{GrowIs, SetupIs};

use growth::Policy;
use reader::{Reader, SetupError};
use refusal::Refusal;

// Whether the policy has a capacity after `size` in a window of `window` bytes. It stands in `next`, which else is 0.
pub fn larizemba_grow_to(
    kind: u64,
    n: usize,
    limit: usize,
    size: usize,
    window: usize,
    next: &mut usize,
) -> bool
    ensures { GrowIs kind n limit size window result next.new }
{
    let grown = Policy::of_kind(kind, n, limit).and_then(|policy| policy.grow_to(size, window));
    *next = grown.unwrap_or(0);
    grown.is_some()
}

// 0 where a reader of this capacity and policy can be made over a window of `window` bytes and a table of `slots` ends,
// else 1.
#[tactic(auto, unfolding(reader::specs::Calls::setup_of, reader::specs::Calls::setup_refused))]
pub fn larizemba_setup_check(
    capacity: usize,
    kind: u64,
    n: usize,
    limit: usize,
    window: usize,
    slots: usize,
) -> u32
    ensures { SetupIs capacity kind n limit window slots result }
{
    if Policy::of_kind(kind, n, limit).is_none() {
        return SetupError.number();
    }
    // The tests of `Reader::new`, which takes the slices that C has only the lengths of.
    if capacity < Reader::MIN || window < capacity || Reader::MOST_WINDOW < window || slots == 0 {
        return SetupError.number();
    }
    0
}
