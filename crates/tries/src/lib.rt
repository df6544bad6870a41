// The tries of one iteration of the inner fit.
#![tactic(auto)]

mod passes;
mod search;

pub use passes::{candidate, fine_etas, finite_row, means, pwrss};
pub use search::{TryRefusal, one_try, tries};
