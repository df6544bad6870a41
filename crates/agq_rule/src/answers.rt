// What a quadrature step answers, and what is reported of it.
ghost use Rattle.std.specs.Prelude.{◌≡◌};
ghost use Rattle.agq_rule.specs.Inner.{deviance_by, order_by, why_by};

use quadrature::{Decline, Order, decline_number, order_size};

// The deviance of an inner fit: declining keeps Laplace.
#[tactic(auto, unfolding(crate::specs::Inner::deviance_by))]
pub fn deviance_by(integral: Result<(f64, Order), Decline>, laplace: f64) -> f64
    ensures { result ≡ deviance_by integral laplace }
{
    match integral {
        Ok((d, _)) => d,
        Err(_) => laplace,
    }
}

// The order that is reported: the one used, 1 for Laplace.
#[tactic(auto, unfolding(crate::specs::Inner::order_by))]
pub fn order_by(integral: Result<(f64, Order), Decline>) -> usize
    ensures { result ≡ order_by integral }
{
    match integral {
        Ok((_, order)) => order_size(order),
        Err(_) => 1,
    }
}

// Why it stayed with Laplace: 0 where the rule was used.
#[tactic(auto, unfolding(crate::specs::Inner::why_by))]
pub fn why_by(integral: Result<(f64, Order), Decline>) -> usize
    ensures { result ≡ why_by integral }
{
    match integral {
        Ok(_) => 0,
        Err(decline) => decline_number(decline),
    }
}
