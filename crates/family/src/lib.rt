// The links and families for one number, and what of them is carried.
#![tactic(auto)]

mod carried;
mod families;
mod links;

pub use carried::{
    CarriedFamily, CarriedLink, carried_family, carried_link, default_for, link_of, valid_for,
};
pub use families::{
    dev_resid, in_range, initialize_mu, ln_dgamma, trials_mean, uses_dispersion, variance,
};
pub use links::{link_fun, link_inv, mu_eta};
