// Working weights and working responses.
ghost use Rattle.std.specs.Prelude.{◌≡◌, true, ◌+◌, ◌≤◌, length};
ghost use Rattle.base.specs.List.{fill_at};
ghost use Rattle.family.specs.Link.{link_inv, mu_eta};
ghost use Rattle.rule.specs.Working.{working_weight_at, working_response_at};
ghost use Rattle.working.specs.Met.{Met};

use base::{EPSILON, max};
use family::{CarriedFamily, CarriedLink, mu_eta, variance};
use family_lists::weight_at;
use rule::{working_response, working_weight};

// The derivative of a mean that is eta's. Inside its ends the clamp of the logit link did nothing, so the mean is the logistic itself; with the log link it is the derivative.
fn met_slope(link: CarriedLink, eta: f64, mu: f64) -> f64
    requires { mu ≡ link_inv link eta }
    ensures { result ≡ mu_eta link eta }
{
    match link {
        CarriedLink::Logit if EPSILON < mu && mu < 1.0 - EPSILON => max(mu * (1.0 - mu), EPSILON),
        CarriedLink::Log => mu,
        _ => mu_eta(link, eta),
    }
}

// The derivative at eta, without a second exponential where mu is told to be its mean.
fn slope(link: CarriedLink, eta: f64, mu: f64, met: bool) -> f64
    requires { met ≡ true → mu ≡ link_inv link eta }
    ensures { result ≡ mu_eta link eta }
{
    if met {
        met_slope(link, eta, mu)
    } else {
        mu_eta(link, eta)
    }
}

// w of every observation into t from w_at on, z from z_at on. The derivative is evaluated once for both; met says that mu are eta's means.
pub fn working_rows(
    family: CarriedFamily,
    link: CarriedLink,
    met: bool,
    phi: f64,
    y: &[f64],
    weights: &[f64],
    eta: &[f64],
    mu: &[f64],
    n: usize,
    w_at: usize,
    z_at: usize,
    t: &mut [f64],
)
    requires n_in_bounds { (n ≤ length y.now) × (n ≤ length eta.now) × (n ≤ length mu.now) × (w_at + n ≤ z_at) × (z_at + n ≤ length t.old) }
    requires met { met ≡ true → Met link n eta.now mu.now }
    ensures { t.new
        ≡ fill_at z_at n (working_response_at link y.now eta.now mu.now)
        (fill_at w_at n (working_weight_at family link weights.now phi eta.now mu.now) t.old) }
{
    for i in 0..n {
        let e = eta[i];
        let m = mu[i];
        let me = slope(link, e, m, met);
        let wt = weight_at(weights, i);
        t[w_at + i] = working_weight(phi, wt, me, variance(family, m));
        t[z_at + i] = working_response(e, y[i], m, me);
    }
}
