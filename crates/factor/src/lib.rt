// Factors of small symmetric matrices, substitution with them, and inverses. A matrix of size s stands row by row, entry (i, j) at i * s + j,
// and only its lower triangle is read.
#![tactic(auto)]

mod each;
mod factors;
mod inverses;
mod pivots;
mod sides;
mod substitution;

pub use factors::{cholesky, ldl};
pub use inverses::{cholesky_inverse, ldl_inverse, v_at};
pub use sides::ldl_solve_columns;
pub use substitution::{
    backward, cholesky_solve, forward, ldl_solve, over_d, unit_backward, unit_forward,
};
