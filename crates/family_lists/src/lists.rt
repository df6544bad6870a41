// The list functions: each entry of a lent output by the function of one number. Nothing is asked of the lists.
ghost use Rattle.std.specs.Prelude.{◌≡◌, Float};
ghost use Rattle.family.specs.Link.{link_fun, link_inv, mu_eta};
ghost use Rattle.family.specs.Family.{variance_of, initialize_mu};
ghost use Rattle.family_lists.specs.Lists.{list_number, ListedEach, ListedDeviances, weight_at, weight_sum, lengths_agree};

use family::{
    CarriedFamily, CarriedLink, dev_resid, initialize_mu, link_fun, link_inv, mu_eta, variance,
};

// Why a list function did nothing.
#[derive(Clone, Copy, Debug, PartialEq, Eq)]
pub enum ListError {
    LengthsDiffer,
}

// The number under which the answer is told.
pub fn list_number(answer: Result<(), ListError>) -> usize
    ensures { result ≡ list_number answer }
{
    match answer {
        Ok(()) => 0,
        Err(ListError::LengthsDiffer) => 2,
    }
}

// Each entry of out by the entry of xs.
fn each<F: Fn(f64) -> f64>(xs: &[f64], out: &mut [f64], f: F) -> Result<(), ListError>
    requires { F.IsAlwaysCallable f }
    ensures { (rule : Float → Float) → ((x r : Float) → F.post f x r → r ≡ rule x) → ListedEach rule xs.now out.old out.new result }
{
    if xs.len() != out.len() {
        return Err(ListError::LengthsDiffer);
    }
    for i in 0..xs.len() {
        out[i] = f(xs[i]);
    }
    Ok(())
}

// The predictor of each mean.
pub fn link_fun_list(link: CarriedLink, mu: &[f64], out: &mut [f64]) -> Result<(), ListError>
    ensures { ListedEach (link_fun link) mu.now out.old out.new result }
{
    each(mu, out, |x| link_fun(link, x))
}

// The mean of each predictor.
pub fn link_inv_list(link: CarriedLink, eta: &[f64], out: &mut [f64]) -> Result<(), ListError>
    ensures { ListedEach (link_inv link) eta.now out.old out.new result }
{
    each(eta, out, |x| link_inv(link, x))
}

// The derivative of the mean at each predictor.
pub fn mu_eta_list(link: CarriedLink, eta: &[f64], out: &mut [f64]) -> Result<(), ListError>
    ensures { ListedEach (mu_eta link) eta.now out.old out.new result }
{
    each(eta, out, |x| mu_eta(link, x))
}

// The variance at each mean.
pub fn variance_list(family: CarriedFamily, mu: &[f64], out: &mut [f64]) -> Result<(), ListError>
    ensures { ListedEach (variance_of family) mu.now out.old out.new result }
{
    each(mu, out, |x| variance(family, x))
}

// The mean that a fit starts from, for each response.
pub fn initialize_mu_list(
    family: CarriedFamily,
    y: &[f64],
    out: &mut [f64],
) -> Result<(), ListError>
    ensures { ListedEach (initialize_mu family) y.now out.old out.new result }
{
    each(y, out, |x| initialize_mu(family, x))
}

// Weight i, and 1 where the weights are absent: then the list is empty.
pub fn weight_at(wt: &[f64], i: usize) -> f64
    ensures { result ≡ weight_at wt.now i }
{
    wt.get(i).copied().unwrap_or(1.0)
}

// The sum of the weights of n responses.
pub fn weight_sum(wt: &[f64], n: usize) -> f64
    ensures { result ≡ weight_sum n wt.now }
{
    let mut sum = 0.0;
    for i in 0..n {
        sum = sum + weight_at(wt, i);
    }
    sum
}

// Whether there are as many means as the n responses, and as many weights or none.
#[tactic(auto, unfolding(crate::specs::Lists::lengths_agree))]
pub fn lengths_agree(n: usize, means: usize, weights: usize) -> bool
    ensures { result ≡ lengths_agree n means weights }
{
    means == n && (weights == 0 || weights == n)
}

// The deviance of each response. The weights are as many as the responses, or absent: an empty list.
pub fn dev_resid_list(
    family: CarriedFamily,
    y: &[f64],
    mu: &[f64],
    wt: &[f64],
    out: &mut [f64],
) -> Result<(), ListError>
    ensures { ListedDeviances family y.now mu.now wt.now out.old out.new result }
{
    if !lengths_agree(y.len(), mu.len(), wt.len()) || y.len() != out.len() {
        return Err(ListError::LengthsDiffer);
    }
    for i in 0..y.len() {
        out[i] = dev_resid(family, y[i], mu[i], weight_at(wt, i));
    }
    Ok(())
}
