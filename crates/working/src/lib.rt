// The rows of the inner fit, one number for each observation, as plain loops over lent slices.
#![tactic(auto)]

mod offsets;
mod starting;
mod stopping;
mod weights;

pub use offsets::{less_offset, plus_offset, raw_row};
pub use starting::{start_eta, start_means};
pub use stopping::{deviance_sum, fit_term, log_pivots, mode_deviances};
pub use weights::working_rows;
