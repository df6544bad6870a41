// The columns of X, all of them step by step: the sums over the observations, the right sides and their solutions, the normal matrix and its right side.
#![tactic(auto)]

mod normals;
mod remainders;
mod solutions;
mod sums;
mod weighted;

pub use normals::normal_columns;
