// What happens at one point of a quadrature: its nodes and log weight, the effects there, and the deviance that they give.
#![tactic(auto)]

mod gains;
mod grid;
mod trials;

pub use gains::{delta, deviance_gain, mark_all, mark_group, point_means};
pub use grid::{log_weight, log_weights, point_nodes};
pub use trials::{group_penalty, lambda_within, move_effects};
