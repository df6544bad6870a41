// The job format: which jobs are sound, and where the numbers of a job of fitting sizes stand.
#![tactic(auto)]

mod faults;
mod head;
mod sizes;
mod survey;

pub use faults::{Fault, is_sound};
pub use head::{Head, Piece, head_in, piece_in};
pub use sizes::{Counts, Places};
pub use survey::{Survey, survey_in};
