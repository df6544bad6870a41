// Runs the rows of `working` on special and ordinary values and prints every bit.
// Each buffer is longer than what is written and holds 9 before: the rest stays.
#![tactic(auto)]

ghost use Rattle.working.specs.Optional.{Optional};

use family::{CarriedFamily, CarriedLink, link_inv};
use model::Start;

// w from 1 on and z from 14 on. Predictors and means do not belong together, so that each is seen where it stands.
fn working_rows(family: CarriedFamily, link: CarriedLink, phi: f64, weights: &[f64]) {
    let y = [
        0.0,
        1.0,
        0.25,
        3.0,
        -2.0,
        1e300,
        0.7,
        0.1,
        1.0,
        5.0,
        0.0,
        0.0 / 0.0,
    ];
    let eta = [
        0.3,
        -1.2,
        40.0,
        -800.0,
        0.0,
        -0.0,
        1e-9,
        2.0,
        0.0 / 0.0,
        1.0 / 0.0,
        -1.0 / 0.0,
        1e200,
    ];
    let mu = [
        0.6,
        0.2,
        1.0,
        0.0,
        0.5,
        -3.0,
        1e300,
        2.0,
        0.1,
        0.0 / 0.0,
        1.0 / 0.0,
        1e-17,
    ];
    let mut t = [9.0; 27];
    working::working_rows(
        family, link, false, phi, &y, weights, &eta, &mu, 12, 1, 14, &mut t,
    );
    text::put_list(b"rows", &t, 27);
}

// w and z of one observation whose mean is its predictor's.
fn met_row(family: CarriedFamily, link: CarriedLink, met: bool, y: f64, eta: f64) {
    let mu = [link_inv(link, eta)];
    let mut t = [9.0; 4];
    working::working_rows(
        family,
        link,
        met,
        1.0,
        &[y],
        &[],
        &[eta],
        &mu,
        1,
        0,
        2,
        &mut t,
    );
    text::put_list(b"met", &t, 4);
}

// Told that it is or not, the numbers are the same.
fn both_ways(family: CarriedFamily, link: CarriedLink, y: f64, eta: f64) {
    met_row(family, link, false, y, eta);
    met_row(family, link, true, y, eta);
}

// With the logit link: well inside the ends of the clamp, the last predictors inside them, the first at them, far outside, and no number.
fn met_rows(family: CarriedFamily, link: CarriedLink) {
    both_ways(family, link, 0.0, 0.3);
    both_ways(family, link, 1.0, -1.2);
    both_ways(family, link, 0.25, -0.0);
    both_ways(family, link, 1.0, 35.5);
    both_ways(family, link, 0.0, 36.0);
    both_ways(family, link, 1.0, -36.0);
    both_ways(family, link, 0.0, -36.1);
    both_ways(family, link, 3.0, -800.0);
    both_ways(family, link, 0.7, 1e200);
    both_ways(family, link, 1.0, 0.0 / 0.0);
    both_ways(family, link, 0.0, -1.0 / 0.0);
}

// Every link and family; a dispersion of 1, others, and two below E. Then means that are the predictor's.
fn all_working_rows() {
    let weights = [
        1.0, 0.3, 2.0, 0.0, -1.5, 0.7, 1e-300, 3.0, 0.1, 1.0, 0.9, 1e300,
    ];
    working_rows(CarriedFamily::Binomial, CarriedLink::Logit, 1.0, &weights);
    working_rows(CarriedFamily::Binomial, CarriedLink::Cloglog, 1.0, &[]);
    working_rows(CarriedFamily::Poisson, CarriedLink::Log, 1.0, &weights);
    working_rows(
        CarriedFamily::Gaussian,
        CarriedLink::Identity,
        0.37,
        &weights,
    );
    working_rows(CarriedFamily::Gaussian, CarriedLink::Inverse, 1e-20, &[]);
    working_rows(CarriedFamily::Poisson, CarriedLink::Sqrt, -2.5, &weights);
    working_rows(CarriedFamily::Gamma, CarriedLink::Inverse, 0.37, &weights);
    working_rows(CarriedFamily::Gamma, CarriedLink::Log, 1.0, &[]);
    met_rows(CarriedFamily::Binomial, CarriedLink::Logit);
    met_rows(CarriedFamily::Binomial, CarriedLink::Cloglog);
    met_rows(CarriedFamily::Poisson, CarriedLink::Log);
}

// X of five rows and two columns; out holds Zb.
fn raw_row(offset: &[f64])
    requires { Optional 5 offset.now }
{
    let x = [1.0, 1e16, 0.1, -1e16, 0.7, 3.0, 1.0, 0.2, 1.0, -0.0];
    let mut out = [1.0, 1e16, -1e16, 0.1, -0.3, 9.0];
    working::raw_row(offset, &x, &[0.3, 1.0], 5, 2, &mut out);
    text::put_list(b"raw", &out, 6);
}

// The means stand from 1 on, the predictor from 7 on.
fn start_eta(link: CarriedLink, offset: &[f64])
    requires { Optional 5 offset.now }
{
    let mut rows = [
        9.0, 0.25, 0.75, 0.1, 3.6, 0.0, 9.0, 9.0, 9.0, 9.0, 9.0, 9.0, 9.0,
    ];
    working::start_eta(link, offset, 5, 1, 7, &mut rows);
    text::put_list(b"start", &rows, 13);
}

// The other way round.
fn start_back(offset: &[f64])
    requires { Optional 5 offset.now }
{
    let mut rows = [
        9.0, 9.0, 9.0, 9.0, 9.0, 9.0, 9.0, 0.25, -0.75, 0.1, 3.6, 1e300, 9.0,
    ];
    working::start_eta(CarriedLink::Log, offset, 5, 7, 1, &mut rows);
    text::put_list(b"back", &rows, 13);
}

fn with_offset(offset: &[f64])
    requires { Optional 5 offset.now }
{
    raw_row(offset);
    start_eta(CarriedLink::Logit, offset);
    start_eta(CarriedLink::Cloglog, offset);
    start_eta(CarriedLink::Log, offset);
    start_eta(CarriedLink::Identity, offset);
    start_eta(CarriedLink::Inverse, offset);
    start_eta(CarriedLink::Sqrt, offset);
    start_back(offset);
}

fn put_means(start: Start, family: CarriedFamily, weights: &[f64]) {
    let mut out = [9.0; 6];
    working::start_means(
        start,
        family,
        &[0.0, 1.0, 0.3, -0.0, 1e16],
        weights,
        5,
        &mut out,
    );
    text::put_list(b"means", &out, 6);
}

// The usual start looks at the family and not at the weights, the one with trial counts at the weights and not at the family.
fn start_means(family: CarriedFamily) {
    put_means(Start::Usual, family, &[4.0, 2.0, 3.0, 0.0, 0.5]);
    put_means(Start::Trials, family, &[4.0, 2.0, 3.0, 0.0, 0.5]);
    put_means(Start::Trials, family, &[]);
}

// Of four responses, the first of them named. The means stand from 1 on, the deviances from 6 on; then their sum and the fit term.
fn deviances(family: CarriedFamily, first: f64, weights: &[f64]) {
    let y = [first, 1.0, 0.3, 0.9];
    let mut rows = [9.0, 0.4, 0.6, 0.3, 1.5, 9.0, 9.0, 9.0, 9.0, 9.0, 9.0];
    working::mode_deviances(family, &y, weights, 4, 1, 6, &mut rows);
    text::put_list(b"deviances", &rows, 11);
    let sum = working::deviance_sum(&rows[6..10], 4);
    text::put_word(b"fit");
    text::put_double(sum);
    text::put_double(working::fit_term(family, &y, &rows[1..5], weights, sum));
    text::end_line();
}

fn by_family(family: CarriedFamily) {
    start_means(family);
    deviances(family, 0.0, &[]);
    deviances(family, 0.0, &[1.0, 0.3, 0.0, -2.0]);
}

// A response of 0, for which the fit term is infinite; then responses that have a density.
fn gamma() {
    start_means(CarriedFamily::Gamma);
    deviances(CarriedFamily::Gamma, 0.0, &[]);
    deviances(CarriedFamily::Gamma, 0.7, &[]);
    deviances(CarriedFamily::Gamma, 0.7, &[1.0, 0.3, 0.0, 2.0]);
}

// Factors of three rows: pivots of both signs, and one that is zero.
fn log_pivots() {
    text::put_word(b"pivots");
    text::put_double(working::log_pivots(
        &[0.3, 9.0, 9.0, 0.5, -7.1, 9.0, 0.2, 0.1, 1e-300, 9.0],
        3,
    ));
    text::put_double(working::log_pivots(&[2.0, 9.0, 9.0, 0.5, -0.0, 9.0, 0.2, 0.1, 3.0], 3));
    text::put_double(working::log_pivots(&[], 0));
    text::end_line();
}

fn main() {
    all_working_rows();
    with_offset(&[0.1, -0.2, 1.0, 1e16, -0.7]);
    with_offset(&[]);
    by_family(CarriedFamily::Binomial);
    by_family(CarriedFamily::Poisson);
    by_family(CarriedFamily::Gaussian);
    gamma();
    log_pivots();
}
