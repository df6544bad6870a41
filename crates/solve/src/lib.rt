// One solve of an iteration over the work slices, step by step as the rule has it.
#![tactic(auto)]

mod betas;
mod effects;
mod sides;
mod systems;

pub use betas::{factor_normal, solve_beta};
pub use effects::{effects_into, solve_u, zb_into};
pub use sides::{side, solve_side};
pub use systems::factor_system;
