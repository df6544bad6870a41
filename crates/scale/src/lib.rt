// How far a group's quadrature points lie from the mode, over the work slices: one effect a group, or several.
#![tactic(auto)]

mod scales;
mod sections;
mod sigmas;

pub use scales::block_scale;
pub use sections::copy_row;
pub use sigmas::one_sigma;
