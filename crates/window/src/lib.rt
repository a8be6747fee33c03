// The window and its refills (01): how far a lent window is filled, which part of the input it holds, and what is asked
// for next. Nothing of a format stands here: a reader of any format fills its window through this crate.
#![tactic(auto)]

mod fill;
mod offset;

pub use fill::{Ask, Fill};
pub use offset::{InputOffset, WindowOffset, to_input, to_window};
