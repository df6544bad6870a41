// Many responses on one design: the single calls one by one, each with its own block of the results and its own counts.
#![tactic(auto)]

mod lent;
mod responses;
mod whole;

pub use whole::{fit_fronts_many, fit_many};
