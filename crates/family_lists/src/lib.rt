// The links and families over lent lists, and the AIC.
#![tactic(auto)]

mod aics;
mod lists;

pub use aics::{aic, aic_of};
pub use lists::{
    ListError, dev_resid_list, initialize_mu_list, lengths_agree, link_fun_list, link_inv_list,
    list_number, mu_eta_list, variance_list, weight_at, weight_sum,
};
