// The published tables of exp and ln, row by row.
#![tactic(auto)]

mod exptable;
mod logtable;

pub use exptable::{ExpRow, exp_row};
pub use logtable::{LogRow, log_row};
