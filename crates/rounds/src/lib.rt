// The fit of an accepted call over the work slices: the dispersion loop, or one inner fit.
#![tactic(auto)]

mod dispersing;
mod starting;
mod totals;

pub use dispersing::fit_in;
pub use totals::Fit;
