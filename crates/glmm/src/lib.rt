// One call of the fit.
#![tactic(auto)]

mod accepted;
mod calls;
mod writing;

pub use calls::fit;
