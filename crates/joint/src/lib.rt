// The joint rule over the work slices.
#![tactic(auto)]

mod steps;

pub use steps::joint_step;
