// What is made of a mode for the nine lent results, and the one function that writes them.
#![tactic(auto)]

mod fixed;
mod responses;
mod writer;

pub use fixed::{standard_errors, v_rows, z_values};
pub use responses::residuals;
pub use writer::write_results;
