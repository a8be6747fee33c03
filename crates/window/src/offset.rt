// Offsets in the window and in the input are numbers of two types (01). Search, moves and seeks turn one into the other
// by these functions alone.
ghost use Rattle.window.specs.Offset.{ToInput, ToWindow};

#[derive(Clone, Copy, Debug, PartialEq, Eq, PartialOrd, Ord)]
pub struct WindowOffset(pub usize);

#[derive(Clone, Copy, Debug, PartialEq, Eq, PartialOrd, Ord)]
pub struct InputOffset(pub u64);

impl InputOffset {
    // The input has at most this many bytes.
    pub const MOST: u64 = 1 << 62;
}

// The place of the input at an offset of a window whose first byte stands at `base`.
pub fn to_input(base: InputOffset, at: WindowOffset) -> InputOffset
    ensures { ToInput base at result }
{
    InputOffset(base.0.saturating_add(at.0 as u64))
}

// The offset in a window whose first byte stands at `base` of a place of the input, 0 for one before the window.
pub fn to_window(base: InputOffset, at: InputOffset) -> WindowOffset
    ensures { ToWindow base at result }
{
    WindowOffset(at.0.saturating_sub(base.0) as usize)
}
