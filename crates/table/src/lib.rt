// The table of refusals: what a call is given is tested before anything is done.
#![tactic(auto)]

mod lengths;
mod numbers;
mod verdicts;

pub use verdicts::{LentLengths, verdict_of};
