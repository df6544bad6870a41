// One iteration of the inner fit, over the three work slices.
#![tactic(auto)]

mod iterates;
mod raws;
mod roots;
mod sides;
mod solving;
mod steps;

pub use iterates::{Iteration, iterate};
pub use raws::raw_into;
pub use roots::solve_root;
pub use sides::right_sides;
pub use solving::solve_into;
pub use steps::{eta_row, step};
