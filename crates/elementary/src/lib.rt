// The elementary functions on doubles, each equal to a published algorithm's ordered operations.
#![tactic(auto)]

mod expm1;
mod expo;
mod log;
mod log1p;
mod parts;

pub use expm1::exp_m1;
pub use expo::{exp, exp_two};
pub use log::ln;
pub use log1p::ln_1p;
pub use parts::{LN2_HI, LN2_LO};
