// The reader (01, modules 4 and 7; fasta.rs): setup, reads, reports, seeks and positions, and the looks that record
// sets go by. A reader is taken and given back by value; the window and the table of line ends stay with the caller,
// who lends them to each read.
#![tactic(auto)]

mod calls;
mod error;
mod hunt;
mod look;
mod read;
mod state;

pub use error::{RecordError, ReportError, SeekError, SetupError, StateError};
pub use state::{
    Answer, Current, Look, Mark, Next, Phase, Position, Reader, Reported, Sight, Sought,
};
