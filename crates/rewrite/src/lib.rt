// A record's writers (01, modules 3 and 5): of a record in bytes, by the place of its `>` and its recorded ends, and of
// a reader's current record. Each is total: it tests the ends that it uses. What is written goes straight from the
// bytes into the output.
#![tactic(auto)]

mod column;
mod current;
mod error;
mod lines;
mod unchanged;

pub use current::{write, write_unchanged, write_wrap};
pub use error::RewriteError;
pub use lines::{write_in, write_wrap_in, write_wrap_seq_iter};
pub use unchanged::write_unchanged_in;
