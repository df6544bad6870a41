// The means and the predictor that the inner fit starts from.
ghost use Rattle.std.specs.Prelude.{◌≡◌, ◌+◌, ◌≤◌, length};
ghost use Rattle.base.specs.List.{build, fill_to};
ghost use Rattle.base.specs.Rows.{row, Apart, Wrote};
ghost use Rattle.rule.specs.Run.{start_mean, start_mean_at, start_eta_at};
ghost use Rattle.working.specs.Optional.{Optional};

use crate::offsets::plus_offset;
use family::{CarriedFamily, CarriedLink, initialize_mu, link_fun, trials_mean};
use family_lists::weight_at;
use model::Start;

// The mean that a response y with weight wt starts from. The family matters for the usual start alone.
#[tactic(auto, unfolding(rule::specs::Run::start_mean))]
fn start_mean(start: Start, family: CarriedFamily, wt: f64, y: f64) -> f64
    ensures { result ≡ start_mean start family wt y }
{
    match start {
        Start::Usual => initialize_mu(family, y),
        Start::Trials => trials_mean(wt, y),
    }
}

// The starting means into out.
pub fn start_means(
    start: Start,
    family: CarriedFamily,
    y: &[f64],
    weights: &[f64],
    n: usize,
    out: &mut [f64],
)
    requires { (n ≤ length y.now) × (n ≤ length out.old) }
    ensures { out.new ≡ fill_to n (start_mean_at start family y.now weights.now) out.old }
{
    for i in 0..n {
        let wt = weight_at(weights, i);
        out[i] = start_mean(start, family, wt, y[i]);
    }
}

// The starting predictor into the row at eta_at, from the means in the row at mu_at.
pub fn start_eta(
    link: CarriedLink,
    offset: &[f64],
    n: usize,
    mu_at: usize,
    eta_at: usize,
    rows: &mut [f64],
)
    requires { (Optional n offset.now) × (Apart mu_at n eta_at n) × (mu_at + n ≤ length rows.old) × (eta_at + n ≤ length rows.old) }
    ensures { Wrote eta_at n (build (start_eta_at link offset.now (row mu_at n rows.old)) n) rows.old rows.new }
{
    for i in 0..n {
        let eta = link_fun(link, rows[mu_at + i]);
        rows[eta_at + i] = plus_offset(offset, i, eta);
    }
}
