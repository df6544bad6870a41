// The last stage of the iteration that stops: the deviances, the fit term, the Laplace deviance and the inverse of the normal matrix's factor.
ghost use Rattle.std.specs.Prelude.{◌≡◌, ◌*◌, ◌≤◌, length};
ghost use Rattle.base.specs.Number.{◌⊕◌};
ghost use Rattle.base.specs.Rows.{row, Wrote};
ghost use Rattle.base.specs.Sum.{dot_of};
ghost use Rattle.factor.specs.Inverse.{cholesky_inverse};
ghost use Rattle.layout.specs.Layout.{WorkRoom};
ghost use Rattle.layout.specs.WorkMatrices.{root_inverse_place, u_place, matrices_length};
ghost use Rattle.layout.specs.WorkRows.{mu_row, rows_length};
ghost use Rattle.layout.specs.WorkTerms.{factor_place, normal_place, terms_length};
ghost use Rattle.rule.specs.Stop.{fit_term, log_pivots};
ghost use Rattle.stages.specs.Stopped.{DeviancesLeft, Stops};

use family::CarriedFamily;
use working::{deviance_sum, fit_term, log_pivots, mode_deviances};

// The numbers of a stop.
#[derive(Clone, Copy)]
pub struct AtStop {
    pub deviance_sum: f64,
    pub fit: f64,
    pub laplace: f64,
}

// The deviances at the means into their row, and their sum.
fn deviances_into(family: CarriedFamily, y: &[f64], weights: &[f64], n: usize, r: &mut [f64]) -> f64
    requires { (n ≤ 512) × (n ≤ length y.now) × (rows_length n ≤ length r.old) }
    ensures { DeviancesLeft family y.now weights.now n r.old r.new result }
{
    let mu = layout::mu_row(n);
    let deviances = layout::deviance_row(n);
    let point = layout::point_row(n);
    mode_deviances(family, y, weights, n, mu, deviances, r);
    deviance_sum(&r[deviances..point], n)
}

// The fit term at the means.
fn fit_at(family: CarriedFamily, y: &[f64], weights: &[f64], n: usize, sum: f64, r: &[f64]) -> f64
    requires { (n ≤ 512) × (rows_length n ≤ length r.now) }
    ensures { result ≡ fit_term family y.now (row (mu_row n) n r.now) weights.now sum }
{
    let mu = layout::mu_row(n);
    let raw = layout::raw_row(n);
    fit_term(family, y, &r[mu..raw], weights, sum)
}

// The Laplace deviance: the factor of A stands in t, u in m.
fn laplace_at(p: usize, q: usize, fit: f64, m: &[f64], t: &[f64]) -> f64
    requires { (p ≤ 16) × (q ≤ 32) × (matrices_length p q ≤ length m.now) × (terms_length ≤ length t.now) }
    ensures { result ≡ (fit ⊕ log_pivots q (row factor_place (q * q) t.now)) ⊕ dot_of q (row (u_place p q) q m.now) (row (u_place p q) q m.now) }
{
    let factor = layout::factor_at();
    let w = layout::w_at(q);
    let u = layout::u_at(p, q);
    let b = layout::b_at(p, q);
    let pivots = log_pivots(&t[factor..w], q);
    let squares = base::dot(&m[u..b], &m[u..b], q);
    (fit + pivots) + squares
}

// The inverse of the normal matrix's factor, which stands in t, into its place in m.
fn root_inverse(n: usize, p: usize, q: usize, t: &[f64], m: &mut [f64])
    requires { (n ≤ 512) × (p ≤ 16) × (q ≤ 32) × (matrices_length p q ≤ length m.old) × (terms_length ≤ length t.now) }
    ensures { Wrote (root_inverse_place p q) (p * p) (cholesky_inverse p (row (normal_place n p q) (p * p) t.now)) m.old m.new }
{
    let normal = layout::normal_at(n, p, q);
    let spare = layout::spare_at(n, p, q);
    let root = layout::root_inverse_at(p, q);
    let wy = layout::wy_at(p, q);
    factor::cholesky_inverse(&t[normal..spare], p, &mut m[root..wy]);
}

// What the results and the quadrature need of the iteration that stops.
pub fn stop(
    family: CarriedFamily,
    y: &[f64],
    weights: &[f64],
    n: usize,
    p: usize,
    q: usize,
    r: &mut [f64],
    m: &mut [f64],
    t: &[f64],
) -> AtStop
    requires { (WorkRoom n p q r.old m.old t.now) × (n ≤ length y.now) }
    ensures { Stops family y.now weights.now n p q (row (mu_row n) n r.old) t.now r.old r.new
        m.old m.new result }
{
    let deviance_sum = deviances_into(family, y, weights, n, r);
    let fit = fit_at(family, y, weights, n, deviance_sum, r);
    let laplace = laplace_at(p, q, fit, m, t);
    root_inverse(n, p, q, t, m);
    AtStop {
        deviance_sum,
        fit,
        laplace,
    }
}
