// Λ, which theta and the shape make, and its products.
#![tactic(auto)]

mod column;
mod products;
mod systems;

pub use column::{Column, column_of};
pub use products::{add_column, lambda_times, lambda_transposed};
pub use systems::{right_columns, system};
