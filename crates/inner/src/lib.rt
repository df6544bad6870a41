// The inner fit with its quadrature, as the written rule has it.
#![tactic(auto)]

mod answers;
mod fits;
mod quadratures;

pub use answers::{Answered, InnerAnswer};
pub use fits::inner_answer;
pub use quadratures::quadrature_at;
