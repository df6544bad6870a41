// The first and the last stage of an iteration: the weights and responses of the predictor, and what a stop is told by.
#![tactic(auto)]

mod holders;
mod stops;
mod weighing;

pub use holders::holder;
pub use stops::{AtStop, stop};
pub use weighing::{targets_into, weigh};
