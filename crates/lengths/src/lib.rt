// The lengths of the work buffers that a caller must lend, by the sizes of a call.
#![tactic(auto)]

mod asked;

pub use asked::{in_range, matrices_asked, rows_asked};
