// Reading a job: its numbers go into lent slices, and a refused job leaves them as they were.
#![tactic(auto)]

mod lists;
mod whole;

pub use whole::{Found, Header, read_job};
