// Runs the links and families on special and ordinary values and prints every bit, one line a call; then which pairs are valid and what is carried.
#![tactic(auto)]

use family::{CarriedFamily, CarriedLink};
use model::{Family, Link};

// The neighbours of 1 and E; then ordinary means and predictors, and where the formulas turn.
const VALUES: [u64; 63] = [
    0x3fef_ffff_ffff_ffff,
    0x3ff0_0000_0000_0001,
    0x3caf_ffff_ffff_ffff,
    0x3cb0_0000_0000_0001,
    0x3fe0_0000_0000_0000,
    0x3fd0_0000_0000_0000,
    0x3fe8_0000_0000_0000,
    0x3fb9_9999_9999_999a,
    0x3fec_cccc_cccc_cccd,
    0x3f50_624d_d2f1_a9fc,
    0x3fef_f7ce_d916_872b,
    0x3ddb_7cdf_d9d7_bdbb,
    0x3c9c_d2b2_97d8_89bc,
    0x3fd3_3333_3333_3333,
    0x3ff8_0000_0000_0000,
    0x4004_0000_0000_0000,
    0x4008_0000_0000_0000,
    0x4014_0000_0000_0000,
    0x401d_0000_0000_0000,
    0x4024_0000_0000_0000,
    0x4034_0000_0000_0000,
    0x4042_0000_0000_0000,
    0x4042_4000_0000_0000,
    0x4042_8000_0000_0000,
    0x4059_0000_0000_0000,
    0x4085_e000_0000_0000,
    0x4086_2e00_0000_0000,
    0x4086_3000_0000_0000,
    0x4202_a05f_2000_0000,
    0x54b2_49ad_2594_c37d,
    0x601d_d557_45cb_b7ed,
    0x6974_e718_d7d7_625a,
    0xbfe0_0000_0000_0000,
    0xbfb9_9999_9999_999a,
    0xbddb_7cdf_d9d7_bdbb,
    0xbff8_0000_0000_0000,
    0xc004_0000_0000_0000,
    0xc014_0000_0000_0000,
    0xc024_0000_0000_0000,
    0xc042_0000_0000_0000,
    0xc042_4000_0000_0000,
    0xc042_8000_0000_0000,
    0xc059_0000_0000_0000,
    0xc085_e000_0000_0000,
    0xc087_4800_0000_0000,
    0xc087_5000_0000_0000,
    0xc202_a05f_2000_0000,
    0xe974_e718_d7d7_625a,
    0x400c_cccc_cccc_cccd,
    0x400d_9999_9999_999a,
    0xbc9c_d2b2_97d8_89bc,
    0x418f_f2b6_0000_0000,
    0x4190_3664_0000_0000,
    0x3e50_1b2b_29a4_692b,
    0xc020_4074_bdbf_8864,
    0xc020_4074_bdbf_8865,
    0x4020_3293_d7de_204f,
    0x4020_3293_d7de_2050,
    0x4020_c353_168a_6a20,
    0x4020_c353_168a_6a21,
    0xc020_c353_168a_6a21,
    0x4044_0000_0000_0000,
    0xc044_0000_0000_0000,
];

// Responses within the families' ranges, at their ends and outside.
const RESPONSES: [u64; 19] = [
    0x7ff8_0000_0000_0000,
    0x7ff0_0000_0000_0000,
    0xfff0_0000_0000_0000,
    0x8000_0000_0000_0000,
    0x0000_0000_0000_0000,
    0x0000_0000_0000_0001,
    0x3cb0_0000_0000_0000,
    0x3fd0_0000_0000_0000,
    0x3fe0_0000_0000_0000,
    0x3fef_ffff_ffff_fffe,
    0x3fef_ffff_ffff_ffff,
    0x3ff0_0000_0000_0000,
    0x3ff0_0000_0000_0001,
    0x3ff8_0000_0000_0000,
    0x4000_0000_0000_0000,
    0x401c_0000_0000_0000,
    0xbff0_0000_0000_0000,
    0x8000_0000_0000_0001,
    0x01a5_6e1f_c2f8_f359,
];

// Means, also such as the clamps and floors change.
const MEANS: [u64; 10] = [
    0x7ff8_0000_0000_0000,
    0x7ff0_0000_0000_0000,
    0x0000_0000_0000_0000,
    0x3cb0_0000_0000_0000,
    0x3fd3_3333_3333_3333,
    0x3fef_ffff_ffff_fffe,
    0x3ff0_0000_0000_0000,
    0x4004_0000_0000_0000,
    0xc008_0000_0000_0000,
    0x7e37_e43c_8800_759c,
];

// Responses of a Gamma density, and its shapes, at the ends of what the fit can ask and outside.
const DENSITY_RESPONSES: [u64; 7] = [
    0x7ff8_0000_0000_0000,
    0x7ff0_0000_0000_0000,
    0x0000_0000_0000_0000,
    0xbff0_0000_0000_0000,
    0x0000_0000_0000_0001,
    0x3fd0_0000_0000_0000,
    0x400c_0000_0000_0000,
];

// From where 1 over it overflows to 2^52.
const SHAPES: [u64; 9] = [
    0x7ff8_0000_0000_0000,
    0x7ff0_0000_0000_0000,
    0x0000_0000_0000_0000,
    0xc000_0000_0000_0000,
    0x0004_06de_80b2_596b,
    0x3fd3_3333_3333_3333,
    0x3ff0_0000_0000_0000,
    0x401d_0000_0000_0000,
    0x4330_0000_0000_0000,
];

fn fun_line(x: f64) {
    text::put_word(b"fun");
    text::put_double(x);
    text::put_double(family::link_fun(CarriedLink::Logit, x));
    text::put_double(family::link_fun(CarriedLink::Probit, x));
    text::put_double(family::link_fun(CarriedLink::Cloglog, x));
    text::put_double(family::link_fun(CarriedLink::Log, x));
    text::put_double(family::link_fun(CarriedLink::Identity, x));
    text::put_double(family::link_fun(CarriedLink::Inverse, x));
    text::put_double(family::link_fun(CarriedLink::Sqrt, x));
    text::end_line();
}

fn inv_line(x: f64) {
    text::put_word(b"inv");
    text::put_double(x);
    text::put_double(family::link_inv(CarriedLink::Logit, x));
    text::put_double(family::link_inv(CarriedLink::Probit, x));
    text::put_double(family::link_inv(CarriedLink::Cloglog, x));
    text::put_double(family::link_inv(CarriedLink::Log, x));
    text::put_double(family::link_inv(CarriedLink::Identity, x));
    text::put_double(family::link_inv(CarriedLink::Inverse, x));
    text::put_double(family::link_inv(CarriedLink::Sqrt, x));
    text::end_line();
}

fn eta_line(x: f64) {
    text::put_word(b"eta");
    text::put_double(x);
    text::put_double(family::mu_eta(CarriedLink::Logit, x));
    text::put_double(family::mu_eta(CarriedLink::Probit, x));
    text::put_double(family::mu_eta(CarriedLink::Cloglog, x));
    text::put_double(family::mu_eta(CarriedLink::Log, x));
    text::put_double(family::mu_eta(CarriedLink::Identity, x));
    text::put_double(family::mu_eta(CarriedLink::Inverse, x));
    text::put_double(family::mu_eta(CarriedLink::Sqrt, x));
    text::end_line();
}

fn var_line(x: f64) {
    text::put_word(b"var");
    text::put_double(x);
    text::put_double(family::variance(CarriedFamily::Binomial, x));
    text::put_double(family::variance(CarriedFamily::Poisson, x));
    text::put_double(family::variance(CarriedFamily::Gaussian, x));
    text::put_double(family::variance(CarriedFamily::Gamma, x));
    text::end_line();
}

fn start_line(x: f64) {
    text::put_word(b"start");
    text::put_double(x);
    text::put_double(family::initialize_mu(CarriedFamily::Binomial, x));
    text::put_double(family::initialize_mu(CarriedFamily::Poisson, x));
    text::put_double(family::initialize_mu(CarriedFamily::Gaussian, x));
    text::put_double(family::initialize_mu(CarriedFamily::Gamma, x));
    text::end_line();
}

// Every function of one number.
fn element_lines(x: f64) {
    fun_line(x);
    inv_line(x);
    eta_line(x);
    var_line(x);
    start_line(x);
}

fn ordinary() {
    for pattern in VALUES {
        element_lines(base::double(pattern));
    }
}

// The deviance of one response under the four families.
fn deviances(y: f64, mu: f64, wt: f64) {
    text::put_double(family::dev_resid(CarriedFamily::Binomial, y, mu, wt));
    text::put_double(family::dev_resid(CarriedFamily::Poisson, y, mu, wt));
    text::put_double(family::dev_resid(CarriedFamily::Gaussian, y, mu, wt));
    text::put_double(family::dev_resid(CarriedFamily::Gamma, y, mu, wt));
}

fn dev_line(y: f64, mu: f64) {
    text::put_word(b"dev");
    text::put_double(y);
    text::put_double(mu);
    deviances(y, mu, 1.0);
    deviances(y, mu, 2.5);
    deviances(y, mu, 0.0);
    deviances(y, mu, -1.0);
    deviances(y, mu, 0.0 / 0.0);
    text::end_line();
}

fn with_each_mean(y: f64) {
    for pattern in MEANS {
        dev_line(y, base::double(pattern));
    }
}

// Whether each family is for such a response.
fn range_line(y: f64) {
    text::put_word(b"range");
    text::put_double(y);
    text::put_test(family::in_range(CarriedFamily::Binomial, y));
    text::put_test(family::in_range(CarriedFamily::Poisson, y));
    text::put_test(family::in_range(CarriedFamily::Gaussian, y));
    text::put_test(family::in_range(CarriedFamily::Gamma, y));
    text::end_line();
}

fn response_lines(y: f64) {
    range_line(y);
    with_each_mean(y);
}

fn responses() {
    for pattern in RESPONSES {
        response_lines(base::double(pattern));
    }
}

// The logarithm of a Gamma density at seven scales: NaN, infinity, 0, -1, E², 0.3 and 2.5.
fn density_line(y: f64, shape: f64) {
    text::put_word(b"density");
    text::put_double(y);
    text::put_double(shape);
    text::put_double(family::ln_dgamma(y, shape, 0.0 / 0.0));
    text::put_double(family::ln_dgamma(y, shape, 1.0 / 0.0));
    text::put_double(family::ln_dgamma(y, shape, 0.0));
    text::put_double(family::ln_dgamma(y, shape, -1.0));
    text::put_double(family::ln_dgamma(y, shape, base::EPSILON * base::EPSILON));
    text::put_double(family::ln_dgamma(y, shape, 0.3));
    text::put_double(family::ln_dgamma(y, shape, 2.5));
    text::end_line();
}

fn with_each_shape(y: f64) {
    for pattern in SHAPES {
        density_line(y, base::double(pattern));
    }
}

fn densities() {
    for pattern in DENSITY_RESPONSES {
        with_each_shape(base::double(pattern));
    }
}

// Which links are valid for the family, and the code of its default.
fn valid_line(family: Family) {
    text::put_word(b"valid");
    text::put_test(family::valid_for(Link::Logit, family));
    text::put_test(family::valid_for(Link::Probit, family));
    text::put_test(family::valid_for(Link::Cloglog, family));
    text::put_test(family::valid_for(Link::Log, family));
    text::put_test(family::valid_for(Link::Identity, family));
    text::put_test(family::valid_for(Link::Inverse, family));
    text::put_test(family::valid_for(Link::Sqrt, family));
    text::put_count(model::link_code(family::default_for(family)) as u64);
    text::end_line();
}

fn put_link(link: Link) {
    let carried = family::carried_link(link);
    text::put_count(model::link_code(family::link_of(carried)) as u64);
}

fn put_family(family: Family) {
    text::put_count(family::carried_family(family) as u64);
}

// Seven links and four families, all carried, by their codes.
fn carried() {
    text::put_word(b"carried");
    put_link(Link::Logit);
    put_link(Link::Probit);
    put_link(Link::Cloglog);
    put_link(Link::Log);
    put_link(Link::Identity);
    put_link(Link::Inverse);
    put_link(Link::Sqrt);
    put_family(Family::Binomial);
    put_family(Family::Poisson);
    put_family(Family::Gaussian);
    put_family(Family::Gamma);
    text::end_line();
    text::put_word(b"dispersion");
    text::put_test(family::uses_dispersion(CarriedFamily::Binomial));
    text::put_test(family::uses_dispersion(CarriedFamily::Poisson));
    text::put_test(family::uses_dispersion(CarriedFamily::Gaussian));
    text::put_test(family::uses_dispersion(CarriedFamily::Gamma));
    text::end_line();
}

fn main() {
    text::each_special(element_lines);
    ordinary();
    responses();
    densities();
    valid_line(Family::Binomial);
    valid_line(Family::Poisson);
    valid_line(Family::Gaussian);
    valid_line(Family::Gamma);
    carried();
}
