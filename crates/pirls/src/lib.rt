// The inner fit, as the written rule has it.
#![tactic(auto)]

mod run;

pub use run::{InnerFit, Stopped, inner_fit};
