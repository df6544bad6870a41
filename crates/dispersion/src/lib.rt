// The dispersion loop: the arithmetic of one round. The rounds themselves are defined in specs/, over any inner fit.
#![tactic(auto)]

mod phis;
mod round;

pub use phis::effective_n;
pub use round::round_of;
