// The fit of a job that has been read: the lists in the fronts of lent slices are fitted, and what is fitted is written into one buffer, a list behind another.
#![tactic(auto)]

mod copies;
mod fronts;

pub use fronts::{fit_fronts, results_length};
