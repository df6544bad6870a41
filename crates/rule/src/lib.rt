// The written rule of the inner fit is in specs/; here are its steps for one observation, and its stop test.
#![tactic(auto)]

mod given;
mod steps;

pub use given::{Design, Given};
pub use steps::{divisor, fine_eta, stops, working_response, working_weight};
