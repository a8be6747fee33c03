// Leaves over bytes and line ends (01, module 2, and the leaves of module 4). Each is total: it tests its bounds once a
// call, and its definition says what happens outside them.
#![tactic(auto)]

mod ends;
mod line;
mod moves;
mod parts;

pub use ends::{Searched, Stop, search};
pub use line::{Blank, lead, line_end, trim_cr};
pub use moves::{move_down, move_ends};
pub use parts::copy;
