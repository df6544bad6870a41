// The log terms of a quadrature with several effects at a point: of one group, or of all effects at once.
#![tactic(auto)]

mod all;
mod group;
mod trial;

pub use all::joint_terms;
pub use group::group_terms;
