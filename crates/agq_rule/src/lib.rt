// The written rule of the two quadrature steps and of the inner fit with them is in specs/. Here is what a step answers.
#![tactic(auto)]

mod answers;

pub use answers::{deviance_by, order_by, why_by};
