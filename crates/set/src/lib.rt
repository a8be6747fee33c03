// Record sets (01, module 6, refusal 12): the records that are whole in the window, copied with it, and their views,
// writers and positions by number.
#![tactic(auto)]

mod copies;
mod gather;
mod read;
mod record;
mod state;
mod views;
mod writers;

pub use read::next_set;
pub use record::Held;
pub use state::{Filled, NextSet, Set};
pub use views::SetRef;
