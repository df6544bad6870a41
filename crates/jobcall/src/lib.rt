// A call of the fit with the bytes of a job: read, refused or fitted, and told in lent buffers.
#![tactic(auto)]

mod asked;
mod counts;
mod whole;

pub use asked::results_asked;
pub use counts::{put_counts, put_refusal};
pub use whole::{fit_job, fit_job_theta};
