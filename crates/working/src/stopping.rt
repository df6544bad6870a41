// What a stop is told by: the deviances, their sum, the fit term and the logarithms of the pivots.
ghost use Rattle.std.specs.Prelude.{◌≡◌, ◌+◌, ◌*◌, ◌≤◌, length};
ghost use Rattle.base.specs.List.{build};
ghost use Rattle.base.specs.Rows.{row, Apart, Wrote};
ghost use Rattle.family_lists.specs.Lists.{dev_resid_at};
ghost use Rattle.rule.specs.Stop.{deviance_sum, fit_term, log_pivots};

use base::abs;
use elementary::ln;
use family::{CarriedFamily, dev_resid, uses_dispersion};
use family_lists::{aic_of, weight_at};

// The deviance of every response into the row at dev_at, from the means in the row at mu_at.
pub fn mode_deviances(
    family: CarriedFamily,
    y: &[f64],
    weights: &[f64],
    n: usize,
    mu_at: usize,
    dev_at: usize,
    rows: &mut [f64],
)
    requires { (n ≤ length y.now) × (Apart mu_at n dev_at n) × (mu_at + n ≤ length rows.old) × (dev_at + n ≤ length rows.old) }
    ensures { Wrote dev_at n (build (dev_resid_at family y.now (row mu_at n rows.old) weights.now) n) rows.old
        rows.new }
{
    for i in 0..n {
        let wt = weight_at(weights, i);
        rows[dev_at + i] = dev_resid(family, y[i], rows[mu_at + i], wt);
    }
}

// The sum of the deviances.
pub fn deviance_sum(devs: &[f64], n: usize) -> f64
    requires { n ≤ length devs.now }
    ensures { result ≡ deviance_sum n devs.now }
{
    let mut sum = 0.0;
    for i in 0..n {
        sum = sum + devs[i];
    }
    sum
}

// The fit term: with dispersion it is `aic` less 2, which counts every response and weight that is lent.
#[tactic(auto, unfolding(rule::specs::Stop::fit_term))]
pub fn fit_term(family: CarriedFamily, y: &[f64], mu: &[f64], weights: &[f64], dev: f64) -> f64
    ensures { result ≡ fit_term family y.now mu.now weights.now dev }
{
    if uses_dispersion(family) {
        aic_of(family, y, mu, weights, dev) - 2.0
    } else {
        dev
    }
}

// The sum of the logarithms of the pivots' sizes.
pub fn log_pivots(factor: &[f64], q: usize) -> f64
    requires { q * q ≤ length factor.now }
    ensures { result ≡ log_pivots q factor.now }
{
    let mut sum = 0.0;
    for i in 0..q {
        let o = base::offset(i, q, q);
        sum = sum + ln(abs(factor[o + i]));
    }
    sum
}
