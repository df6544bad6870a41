// The numbers of a round: how many observations count, and the next phi.
ghost use Rattle.std.specs.Prelude.{◌≡◌};
ghost use Rattle.dispersion.specs.Phi.{effective_n, unusable, close, mixed, estimate_of};

use base::{EPSILON, abs, is_finite, max};
use elementary::{exp, ln};
use family_lists::weight_sum;

// The sum of the weights, but at least 1.
#[tactic(auto, unfolding(crate::specs::Phi::effective_n))]
pub fn effective_n(weights: &[f64], n: usize) -> f64
    ensures { result ≡ effective_n n weights.now }
{
    max(weight_sum(weights, n), 1.0)
}

// Neither a deviance sum nor a phi can be used unless it is finite and above zero.
#[tactic(auto, unfolding(crate::specs::Phi::unusable))]
pub fn unusable(v: f64) -> bool
    ensures { result ≡ unusable v }
{
    !is_finite(v) || v <= 0.0
}

// The phi that the deviances ask for, at least E.
#[tactic(auto, unfolding(crate::specs::Phi::estimate_of))]
pub fn estimate(effective: f64, sum: f64) -> f64
    ensures { result ≡ estimate_of effective sum }
{
    max(sum / effective, EPSILON)
}

// Whether phi has come to rest.
#[tactic(auto, unfolding(crate::specs::Phi::close))]
pub fn close(phi: f64, new: f64) -> bool
    ensures { result ≡ close phi new }
{
    abs(new - phi) / max(phi, EPSILON) < 1e-8
}

// A tenth of the way to the new phi, on the scale of logarithms.
#[tactic(auto, unfolding(crate::specs::Phi::mixed))]
pub fn mixed(phi: f64, new: f64) -> f64
    ensures { result ≡ mixed phi new }
{
    exp(0.9 * ln(phi) + 0.1 * ln(new))
}
