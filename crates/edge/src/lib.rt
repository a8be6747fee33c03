// The host edge (01, module 9): growth, the setup test and the writers on numbers, byte slices and line ends.
// include/larizemba.h declares them. None keeps a state, and each takes any arguments. Crate `edge_c` exports them to
// C, under the same names and with the same promises: a crate is a library or a static library, and not both.
#![tactic(auto)]

mod policy;
mod records;
mod tell;
mod writers;

pub use policy::{larizemba_grow_to, larizemba_setup_check};
pub use records::{larizemba_write_unchanged, larizemba_write_wrap_seq_iter};
pub use writers::{
    larizemba_write_head, larizemba_write_id_desc, larizemba_write_parts, larizemba_write_seq,
    larizemba_write_to, larizemba_write_wrap, larizemba_write_wrap_seq,
};
