// The log sums of the quadrature over the work slices: what every sum has, and a group with one effect.
#![tactic(auto)]

mod answers;
mod one;

pub use answers::{GroupSum, Quadrature, inverse_phi, log_sum, power};
pub use one::one_group;
