// The quadrature over the work slices: what the effects at a point do to the deviance, and its log term.
#![tactic(auto)]

mod gain;
mod one;

pub use gain::point_gain;
pub use one::one_terms;
