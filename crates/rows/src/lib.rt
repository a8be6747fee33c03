// What the program writes (01, module 10), put into a lent output from a place on: a row for each record, and the last
// line.
#![tactic(auto)]

mod current;
mod cursor;
mod line;
mod room;

pub use current::{full_len, put_record};
pub use line::{put_last, put_row};
pub use room::Room;
