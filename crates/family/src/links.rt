// The links, for one number: predictor of a mean, mean of a predictor, and the derivative of the mean.
ghost use Rattle.std.specs.Prelude.{◌≡◌};
ghost use Rattle.family.specs.Link.{clamp_e, logistic, cloglog_slope, link_fun, link_inv, mu_eta};

use crate::carried::CarriedLink;
use base::{EPSILON, clamp, is_infinite, max};
use elementary::{exp, exp_m1, ln, ln_1p};
use normal::{norm_cdf, norm_pdf, norm_quantile};
use root::sqrt;

// A probability kept off 0 and 1 by E, so that no logarithm of 0 is taken.
#[tactic(auto, unfolding(crate::specs::Link::clamp_e))]
pub fn inside(p: f64) -> f64
    ensures { result ≡ clamp_e p }
{
    clamp(EPSILON, 1.0 - EPSILON, p)
}

// The mean of the logit link before it is clamped.
#[tactic(auto, unfolding(crate::specs::Link::logistic))]
fn expit(eta: f64) -> f64
    ensures { result ≡ logistic eta }
{
    1.0 / (1.0 + exp(-eta))
}

// x·exp(-x), for x = exp(eta): where x is infinite the product would be no number.
#[tactic(auto, unfolding(crate::specs::Link::cloglog_slope))]
fn cloglog_slope(x: f64) -> f64
    ensures { result ≡ cloglog_slope x }
{
    if is_infinite(x) { 0.0 } else { x * exp(-x) }
}

// The predictor of a mean.
#[tactic(auto, unfolding(crate::specs::Link::link_fun))]
pub fn link_fun(link: CarriedLink, mu: f64) -> f64
    ensures { result ≡ link_fun link mu }
{
    match link {
        CarriedLink::Logit => {
            let m = inside(mu);
            ln(m / (1.0 - m))
        }
        CarriedLink::Probit => norm_quantile(inside(mu)),
        CarriedLink::Cloglog => ln(-ln_1p(-inside(mu))),
        CarriedLink::Log => ln(mu),
        CarriedLink::Identity => mu,
        CarriedLink::Inverse => 1.0 / max(mu, EPSILON),
        CarriedLink::Sqrt => sqrt(max(mu, 0.0)),
    }
}

// The mean of a predictor.
#[tactic(auto, unfolding(crate::specs::Link::link_inv))]
pub fn link_inv(link: CarriedLink, eta: f64) -> f64
    ensures { result ≡ link_inv link eta }
{
    match link {
        CarriedLink::Logit => inside(expit(eta)),
        CarriedLink::Probit => inside(norm_cdf(eta)),
        CarriedLink::Cloglog => inside(-exp_m1(-exp(eta))),
        CarriedLink::Log => exp(eta),
        CarriedLink::Identity => eta,
        CarriedLink::Inverse => 1.0 / max(eta, EPSILON),
        CarriedLink::Sqrt => {
            let e = max(eta, 0.0);
            e * e
        }
    }
}

// The derivative of the mean by the predictor, kept off zero where the link has a floor.
#[tactic(auto, unfolding(crate::specs::Link::mu_eta))]
pub fn mu_eta(link: CarriedLink, eta: f64) -> f64
    ensures { result ≡ mu_eta link eta }
{
    match link {
        CarriedLink::Logit => {
            let p = expit(eta);
            max(p * (1.0 - p), EPSILON)
        }
        CarriedLink::Probit => max(norm_pdf(eta), EPSILON),
        CarriedLink::Cloglog => max(cloglog_slope(exp(eta)), EPSILON),
        CarriedLink::Log => exp(eta),
        CarriedLink::Identity => 1.0,
        CarriedLink::Inverse => {
            let e = max(eta, EPSILON);
            -max(1.0 / (e * e), EPSILON)
        }
        CarriedLink::Sqrt => max(2.0 * max(eta, 0.0), EPSILON),
    }
}
