// norm_quantile: the numbers and the form of Cephes' ndtri, and one of Newton's steps where the smaller tail is below 1/4 (docs/ELEMENTARY.md).
ghost use Rattle.std.specs.Prelude.{◌≡◌, ◌<◌, length};
ghost use Rattle.normal.specs.Quantile.{horner_of, part_of, central_of, near_part, distant_part, guess_by, guess_of, upper_quantile, inside_of, norm_quantile};

use crate::distribution::{density, upper_tail};
use base::{abs, infinity, is_nan};
use elementary::ln;
use root::sqrt;

// P0 over Q0, the middle; the highest power first.
const P0: [f64; 5] = [
    -5.99633501014107895267e1,
    9.80010754185999661536e1,
    -5.66762857469070293439e1,
    1.39312609387279679503e1,
    -1.23916583867381258016e0,
];

const Q0: [f64; 8] = [
    1.95448858338141759834e0,
    4.67627912898881538453e0,
    8.63602421390890590575e1,
    -2.25462687854119370527e2,
    2.00260212380060660359e2,
    -8.20372256168333339912e1,
    1.59056225126211695515e1,
    -1.18331621121330003142e0,
];

// sqrt(2 pi).
const ROOT_TWO_PI: f64 = 2.50662827463100050242e0;

// e^-2: up to this tail the middle's form is not used.
const FAR_TAIL: f64 = 0.13533528323661269189;

// P1 over Q1, sqrt(-2 ln t) from 2 to 8.
const P1: [f64; 9] = [
    4.05544892305962419923e0,
    3.15251094599893866154e1,
    5.71628192246421288162e1,
    4.40805073893200834700e1,
    1.46849561928858024014e1,
    2.18663306850790267539e0,
    -1.40256079171354495875e-1,
    -3.50424626827848203418e-2,
    -8.57456785154685413611e-4,
];

const Q1: [f64; 8] = [
    1.57799883256466749731e1,
    4.53907635128879210584e1,
    4.13172038254672030440e1,
    1.50425385692907503408e1,
    2.50464946208309415979e0,
    -1.42182922854787788574e-1,
    -3.80806407691578277194e-2,
    -9.33259480895457427372e-4,
];

// P2 over Q2, from 8 on.
const P2: [f64; 9] = [
    3.23774891776946035970e0,
    6.91522889068984211695e0,
    3.93881025292474443415e0,
    1.33303460815807542389e0,
    2.01485389549179081538e-1,
    1.23716634817820021358e-2,
    3.01581553508235416007e-4,
    2.65806974686737550832e-6,
    6.23974539184983293730e-9,
];

const Q2: [f64; 8] = [
    6.02427039364742014255e0,
    3.67983563856160859403e0,
    1.37702099489081330271e0,
    2.16236993594496635890e-1,
    1.34204006088543189037e-2,
    3.28014464682127739104e-4,
    2.89247864745380683936e-6,
    6.79019408009981274425e-9,
];

// A polynomial by Horner's rule: `sum` is the highest coefficient, and the others follow, the highest power first.
#[tactic(auto, unfolding(crate::specs::Quantile::horner_of))]
fn horner(sum: f64, others: &[f64], w: f64) -> f64
    ensures { result ≡ horner_of sum others.now w }
{
    others.iter().fold(sum, |s, c| s * w + *c)
}

// w p / q, where q has a leading 1 that is not stored.
#[tactic(auto, unfolding(crate::specs::Quantile::part_of))]
fn part(p: &[f64], q: &[f64], w: f64) -> f64
    requires { (0 < length p.now) × (0 < length q.now) }
    ensures { result ≡ part_of p.now q.now w }
{
    w * horner(p[0], &p[1..], w) / horner(w + q[0], &q[1..], w)
}

// The quantile of 1/2 + q, for |q| up to 0.365.
#[tactic(auto, unfolding(crate::specs::Quantile::central_of))]
fn central(q: f64) -> f64
    ensures { result ≡ central_of q }
{
    (q + q * part(&P0, &Q0, q * q)) * ROOT_TWO_PI
}

// What is taken off in the tail, for w from 1/8 to 1/2.
#[tactic(auto, unfolding(crate::specs::Quantile::near_part))]
fn near_part(w: f64) -> f64
    ensures { result ≡ near_part w }
{
    part(&P1, &Q1, w)
}

// The same for a smaller w.
#[tactic(auto, unfolding(crate::specs::Quantile::distant_part))]
fn distant_part(w: f64) -> f64
    ensures { result ≡ distant_part w }
{
    part(&P2, &Q2, w)
}

// y from x = sqrt(-2 ln t).
#[tactic(auto, unfolding(crate::specs::Quantile::guess_by))]
fn guess_by(x: f64) -> f64
    ensures { result ≡ guess_by x }
{
    let y = x - ln(x) / x;
    let w = 1.0 / x;
    if x < 8.0 {
        return y - near_part(w);
    }
    y - distant_part(w)
}

// y whose tail is t, to some units in the last place, for t from 0 to 1/4.
#[tactic(auto, unfolding(crate::specs::Quantile::guess_of))]
fn guess(t: f64) -> f64
    ensures { result ≡ guess_of t }
{
    if t > FAR_TAIL {
        return central(0.5 - t);
    }
    guess_by(sqrt(-2.0 * ln(t)))
}

// The same with one of Newton's steps, but where the tail is hardly a normal number.
#[tactic(auto, unfolding(crate::specs::Quantile::upper_quantile))]
fn upper_quantile(t: f64) -> f64
    ensures { result ≡ upper_quantile t }
{
    let y = guess(t);
    if t < 9.332636185032189e-302 {
        return y;
    }
    y + (upper_tail(y) - t) / density(y)
}

// The quantile of p strictly between 0 and 1, where q is p - 1/2.
#[tactic(auto, unfolding(crate::specs::Quantile::inside_of))]
fn inside(p: f64, q: f64) -> f64
    ensures { result ≡ inside_of p q }
{
    if abs(q) <= 0.25 {
        return central(q);
    }
    if q < 0.0 {
        return -upper_quantile(p);
    }
    upper_quantile(1.0 - p)
}

// The quantile of the normal distribution, for p from 0 to 1; outside NaN.
#[tactic(auto, using(base::proofs::Doubles::no_quotient, elementary::proofs::Infinite::minus_infinity), unfolding(crate::specs::Quantile::norm_quantile))]
pub fn norm_quantile(p: f64) -> f64
    ensures { result ≡ norm_quantile p }
{
    if is_nan(p) {
        return p;
    }
    if p < 0.0 || p > 1.0 {
        return 0.0 / 0.0;
    }
    if p == 0.0 {
        return -infinity();
    }
    if p == 1.0 {
        return infinity();
    }
    inside(p, p - 0.5)
}
