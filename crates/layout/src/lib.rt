// Where the three work slices hold what, and how long they are.
//
// `rows`: the predictor's two rows and mu live to the results; raw, w·(z - offset), a column x·w and z - offset one iteration;
// Xβ, the deviances, Zb of a point and the mark of a group the quadrature.
// `matrices`: S holds A to the quadrature's end; I belongs to the quadrature; W to one iteration; P, u and β live to the results.
// `terms`: the pieces named here live until the first log term is formed. Two parts of one slice cannot be lent at once,
// so what is read and what is written stand in different slices wherever both are large.
//
// Places that differ in a constant stay functions of their own: each has its name, its contract and its line in the table of the
// slices, and a const parameter would hide the name.
#![tactic(auto)]

mod matrices;
mod products;
mod rows;
mod terms;

pub use matrices::{
    b_at, beta_at, beta_end, inverse_at, matrices_length, root_inverse_at, solved_at, trial_u_at,
    u_at, wy_at,
};
pub use rows::{
    deviance_row, mark_row, mu_row, point_row, raw_row, rows_length, second_eta_row, weighted_row,
    working_row, xbeta_row,
};
pub use terms::{factor_at, normal_at, spare_at, terms_length, unsolved_at, w_at, z_at};
