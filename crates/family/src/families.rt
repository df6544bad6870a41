// The families, for one number: variance, deviance, starting mean, and the logarithm of Gamma's density.
ghost use Rattle.std.specs.Prelude.{◌≡◌};
ghost use Rattle.family.specs.Family.{variance_of, success_term, binomial_term, poisson_term, gamma_term, proportion, in_range, dev_resid, initialize_mu, trials_mean, uses_dispersion, has_density, ln_dgamma};

use crate::carried::CarriedFamily;
use crate::links::inside;
use base::{EPSILON, infinity, max};
use elementary::ln;
use log_gamma::ln_gamma;

// The variance of a response with mean mu, up to the dispersion.
#[tactic(auto, unfolding(crate::specs::Family::variance_of))]
pub fn variance(family: CarriedFamily, mu: f64) -> f64
    ensures { result ≡ variance_of family mu }
{
    match family {
        CarriedFamily::Binomial => {
            let m = inside(mu);
            m * (1.0 - m)
        }
        CarriedFamily::Poisson => max(mu, EPSILON),
        CarriedFamily::Gaussian => 1.0,
        CarriedFamily::Gamma => {
            let m = max(mu, EPSILON);
            m * m
        }
    }
}

// y·ln(y / m), left out where y is 0, as its logarithm is infinite.
#[tactic(auto, unfolding(crate::specs::Family::success_term, base::specs::Sum::add_where))]
fn success_term(y: f64, m: f64) -> f64
    ensures { result ≡ success_term y m }
{
    if y > 0.0 { 0.0 + y * ln(y / m) } else { 0.0 }
}

// Half the deviance of y from 0 to 1 with mean m; the failures' part is left out where y is 1.
#[tactic(auto, unfolding(crate::specs::Family::binomial_term, base::specs::Sum::add_where))]
fn binomial_term(y: f64, m: f64) -> f64
    ensures { result ≡ binomial_term y m }
{
    let successes = success_term(y, m);
    if y < 1.0 {
        successes + (1.0 - y) * ln((1.0 - y) / (1.0 - m))
    } else {
        successes
    }
}

// Half the deviance of a count y with mean m.
#[tactic(auto, unfolding(crate::specs::Family::poisson_term, base::specs::Sum::add_where))]
fn poisson_term(y: f64, m: f64) -> f64
    ensures { result ≡ poisson_term y m }
{
    let rest = -(y - m);
    if y > 0.0 { rest + y * ln(y / m) } else { rest }
}

// Half the deviance of a response y with mean m, both at least E.
#[tactic(auto, unfolding(crate::specs::Family::gamma_term))]
fn gamma_term(y: f64, m: f64) -> f64
    ensures { result ≡ gamma_term y m }
{
    -ln(y / m) + (y - m) / m
}

// From 0 to 1, which no NaN is.
#[tactic(auto, unfolding(crate::specs::Family::proportion))]
fn is_proportion(y: f64) -> bool
    ensures { result ≡ proportion y }
{
    0.0 <= y && y <= 1.0
}

// Whether the family is for such a response.
#[tactic(auto, unfolding(crate::specs::Family::in_range))]
pub fn in_range(family: CarriedFamily, y: f64) -> bool
    ensures { result ≡ in_range family y }
{
    match family {
        CarriedFamily::Binomial => is_proportion(y),
        CarriedFamily::Poisson => 0.0 <= y,
        CarriedFamily::Gaussian => true,
        CarriedFamily::Gamma => 0.0 < y,
    }
}

// The deviance of a binomial response; NaN of one that is not from 0 to 1.
#[tactic(auto, unfolding(crate::specs::Family::dev_resid))]
fn binomial_deviance(y: f64, mu: f64, wt: f64) -> f64
    ensures { result ≡ dev_resid CarriedFamily.Binomial y mu wt }
{
    if is_proportion(y) {
        2.0 * wt * binomial_term(y, inside(mu))
    } else {
        f64::NAN
    }
}

// The deviance of a Poisson response; NaN of one below 0.
#[tactic(auto, unfolding(crate::specs::Family::dev_resid))]
fn poisson_deviance(y: f64, mu: f64, wt: f64) -> f64
    ensures { result ≡ dev_resid CarriedFamily.Poisson y mu wt }
{
    if y < 0.0 {
        f64::NAN
    } else {
        2.0 * wt * poisson_term(y, max(mu, EPSILON))
    }
}

// The deviance of a Gamma response; NaN of one that is 0 or below. A NaN passes the test, and its floor takes it for E.
#[tactic(auto, unfolding(crate::specs::Family::dev_resid))]
fn gamma_deviance(y: f64, mu: f64, wt: f64) -> f64
    ensures { result ≡ dev_resid CarriedFamily.Gamma y mu wt }
{
    if y <= 0.0 {
        f64::NAN
    } else {
        2.0 * wt * gamma_term(max(y, EPSILON), max(mu, EPSILON))
    }
}

// What a response y with mean mu and weight wt adds to the deviance.
#[tactic(auto, unfolding(crate::specs::Family::dev_resid))]
pub fn dev_resid(family: CarriedFamily, y: f64, mu: f64, wt: f64) -> f64
    ensures { result ≡ dev_resid family y mu wt }
{
    match family {
        CarriedFamily::Binomial => binomial_deviance(y, mu, wt),
        CarriedFamily::Poisson => poisson_deviance(y, mu, wt),
        CarriedFamily::Gaussian => {
            let diff = y - mu;
            wt * (diff * diff)
        }
        CarriedFamily::Gamma => gamma_deviance(y, mu, wt),
    }
}

// The mean that a fit starts from.
#[tactic(auto, unfolding(crate::specs::Family::initialize_mu))]
pub fn initialize_mu(family: CarriedFamily, y: f64) -> f64
    ensures { result ≡ initialize_mu family y }
{
    match family {
        CarriedFamily::Binomial => (y + 0.5) / 2.0,
        CarriedFamily::Poisson => y + 0.1,
        CarriedFamily::Gaussian => y,
        CarriedFamily::Gamma => max(y, EPSILON),
    }
}

// The mean that a binomial fit starts from where the weight is a number of trials.
#[tactic(auto, unfolding(crate::specs::Family::trials_mean))]
pub fn trials_mean(wt: f64, y: f64) -> f64
    ensures { result ≡ trials_mean wt y }
{
    (wt * y + 0.5) / (wt + 1.0)
}

// Whether the dispersion is free.
pub fn uses_dispersion(family: CarriedFamily) -> bool
    ensures { result ≡ uses_dispersion family }
{
    matches!(family, CarriedFamily::Gaussian | CarriedFamily::Gamma)
}

// Whether a response, a shape and a scale have a density: all three are above zero, which no NaN is.
#[tactic(auto, unfolding(crate::specs::Family::has_density))]
fn has_density(y: f64, shape: f64, scale: f64) -> bool
    ensures { result ≡ has_density y shape scale }
{
    0.0 < y && 0.0 < shape && 0.0 < scale
}

// The logarithm of Gamma's density at y.
#[tactic(auto, unfolding(crate::specs::Family::ln_dgamma))]
pub fn ln_dgamma(y: f64, shape: f64, scale: f64) -> f64
    ensures { result ≡ ln_dgamma y shape scale }
{
    if has_density(y, shape, scale) {
        -ln_gamma(shape) - shape * ln(scale) + (shape - 1.0) * ln(y) - y / scale
    } else {
        -infinity()
    }
}
