// Moving a record to the front of its window, and its line ends with it.
ghost use Rattle.scan.specs.Move.{MoveDown, MoveEnds};

// The bytes from `from` up to `to` go to the front; those behind the moved part stay.
#[tactic(auto, unfolding(crate::specs::Move::moved_down))]
pub fn move_down(window: &mut [u8], from: usize, to: usize)
    ensures { MoveDown from to window.old window.new }
{
    if from <= to && to <= window.len() {
        window.copy_within(from..to, 0);
    }
}

// Each of the first `count` ends is less by `by` afterwards.
#[tactic(auto, unfolding(crate::specs::Move::moved_ends))]
pub fn move_ends(ends: &mut [usize], count: usize, by: usize)
    ensures { MoveEnds count by ends.old ends.new }
{
    if count <= ends.len() {
        for end in &mut ends[..count] {
            *end = end.saturating_sub(by);
        }
    }
}
