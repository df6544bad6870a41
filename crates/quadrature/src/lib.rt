// Gauss-Hermite quadrature: orders, rules, and the logarithm of a sum of exponentials.
#![tactic(auto)]

mod logsum;
mod orders;
mod rules;

pub use logsum::log_sum_exp;
pub use orders::{
    Decline, Order, decline_number, order_of, order_size, resolve_gh_order, resolve_gh_order_joint,
    resolve_gh_order_product,
};
pub use rules::{Rule, gh_rule};
