// The families' AIC over lent lists.
ghost use Rattle.std.specs.Prelude.{◌≡◌, length};
ghost use Rattle.std.specs.Float.Ieee.{lt};
ghost use Rattle.base.specs.Number.{zero_f};
ghost use Rattle.base.specs.Sum.{◌!◌, sum_to, add_where};
ghost use Rattle.elementary.specs.Log.{ln_of};
ghost use Rattle.family_lists.specs.Aic.{log_weights, gaussian_term, gaussian_aic, density_at, gamma_aic, aic_of, aic_answer};

use crate::lists::{ListError, lengths_agree, weight_at, weight_sum};
use base::{EPSILON, infinity, is_finite, max};
use elementary::ln;
use family::{CarriedFamily, ln_dgamma};

const PI: f64 = 3.141592653589793;

// A weight that is not above zero adds no logarithm.
#[tactic(auto, unfolding(base::specs::Sum::add_where))]
fn add_log(sum: f64, w: f64) -> f64
    ensures { result ≡ add_where (lt zero_f w) sum (ln_of w) }
{
    if 0.0 < w { sum + ln(w) } else { sum }
}

// The sum of the logarithms of the weights above zero.
fn log_weights(wt: &[f64]) -> f64
    ensures { result ≡ log_weights wt.now }
{
    let mut sum = 0.0;
    for &w in wt {
        sum = add_log(sum, w);
    }
    sum
}

// The Gaussian AIC of n responses, where it is finite or NaN.
#[tactic(auto, unfolding(crate::specs::Aic::gaussian_term))]
fn gaussian_term(n: usize, wt: &[f64], dev: f64) -> f64
    ensures { result ≡ gaussian_term n wt.now dev }
{
    let count = std::num::nearest_u64_to_f64(n as u64);
    count * (ln(2.0 * PI * dev / count) + 1.0) + 2.0 - log_weights(wt)
}

// The Gaussian AIC of n responses whose deviances sum to dev.
#[tactic(auto, unfolding(crate::specs::Aic::gaussian_aic))]
fn gaussian_aic(n: usize, wt: &[f64], dev: f64) -> f64
    ensures { result ≡ gaussian_aic n wt.now dev }
{
    if n == 0 || !is_finite(dev) || dev <= 0.0 {
        return infinity();
    }
    gaussian_term(n, wt, dev)
}

// Mean i, and NaN past the end of the means.
fn mean_at(mu: &[f64], i: usize) -> f64
    ensures { result ≡ mu.now ! i }
{
    mu.get(i).copied().unwrap_or(f64::NAN)
}

// The sum of the responses' log densities, each times its weight, where the dispersion is phi.
fn densities(y: &[f64], mu: &[f64], wt: &[f64], phi: f64) -> f64
    ensures { result ≡ sum_to (length y.now) (density_at y.now mu.now wt.now phi) }
{
    let shape = 1.0 / phi;
    let mut sum = 0.0;
    for i in 0..y.len() {
        let scale = max(mean_at(mu, i), EPSILON) * phi;
        sum = sum + weight_at(wt, i) * ln_dgamma(y[i], shape, scale);
    }
    sum
}

// The Gamma AIC of responses whose deviances sum to dev.
#[tactic(auto, unfolding(crate::specs::Aic::gamma_aic, crate::specs::Aic::density_term))]
fn gamma_aic(y: &[f64], mu: &[f64], wt: &[f64], dev: f64) -> f64
    ensures { result ≡ gamma_aic y.now mu.now wt.now dev }
{
    let n = weight_sum(wt, y.len());
    if n <= 0.0 || !is_finite(dev) || dev <= 0.0 {
        return infinity();
    }
    -2.0 * densities(y, mu, wt, max(dev / n, EPSILON)) + 2.0
}

// The AIC of responses y with means mu and weights wt, whose deviances sum to dev.
#[tactic(auto, unfolding(crate::specs::Aic::aic_of))]
pub fn aic_of(family: CarriedFamily, y: &[f64], mu: &[f64], wt: &[f64], dev: f64) -> f64
    ensures { result ≡ aic_of family y.now mu.now wt.now dev }
{
    match family {
        CarriedFamily::Binomial | CarriedFamily::Poisson => dev,
        CarriedFamily::Gaussian => gaussian_aic(y.len(), wt, dev),
        CarriedFamily::Gamma => gamma_aic(y, mu, wt, dev),
    }
}

// `aic_of`, for any lists.
#[tactic(auto, unfolding(crate::specs::Aic::aic_answer))]
pub fn aic(
    family: CarriedFamily,
    y: &[f64],
    mu: &[f64],
    wt: &[f64],
    dev: f64,
) -> Result<f64, ListError>
    ensures { result ≡ aic_answer family y.now mu.now wt.now dev }
{
    if !lengths_agree(y.len(), mu.len(), wt.len()) {
        return Err(ListError::LengthsDiffer);
    }
    Ok(aic_of(family, y, mu, wt, dev))
}
