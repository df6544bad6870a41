// From the bytes of a job to the bytes that are printed.
#![tactic(auto)]

mod flat;
mod whole;

pub use flat::put_flat;
pub use whole::{respond, respond_long};
