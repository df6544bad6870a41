// The normal distribution function, its density and its quantile on doubles, each equal to a published algorithm's ordered operations.
#![tactic(auto)]

mod distribution;
mod far;
mod near;
mod parts;
mod quantile;

pub use distribution::{norm_cdf, norm_pdf};
pub use quantile::norm_quantile;
