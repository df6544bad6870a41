// The logarithm of gamma on doubles: a published algorithm's ordered operations.
#![tactic(auto)]

mod gamma;
mod near;

pub use gamma::ln_gamma;
