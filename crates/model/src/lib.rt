// What a call of the fit is made of, by value: names, sizes, account and answer.
#![tactic(auto)]

mod counts;
mod ends;
mod lent;
mod names;
mod sizes;

pub use counts::Account;
pub use ends::{Answer, End, Refusal, end_number, is_end, refusal_number};
pub use lent::Inputs;
pub use names::{
    Family, Link, Start, UnknownCode, family_code, family_coded, is_inverse, limit_of, link_code,
    link_coded, start_code, start_coded,
};
pub use sizes::{
    Settings, Shape, effects, first_effect, first_theta, shape_ok, sizes_ok, theta_length,
};
