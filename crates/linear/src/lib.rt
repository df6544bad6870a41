// Products with X and with the solved columns, as plain loops in document 01's order.
#![tactic(auto)]

mod crosses;
mod product;

pub use crosses::{begin_at, cross_rows};
pub use product::{effects_less, products, x_beta};
