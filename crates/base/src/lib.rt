// The vocabulary of the project: single numbers, sums, fills and tests over lent slices, sparse rows.
#![tactic(auto)]

mod number;
mod sparse;
mod vector;

pub use number::{
    EPSILON, MAX, abs, clamp, double, infinity, is_finite, is_infinite, is_nan, is_sign_negative,
    max, pattern,
};
pub use sparse::{columns_ok, rows_ok, starts_ok};
pub use vector::{all_finite, copy, dot, dot_from, offset, wipe};
