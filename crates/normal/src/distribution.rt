// norm_cdf and norm_pdf, by the tail and by one exponential of two parts (docs/ELEMENTARY.md).
ghost use Rattle.std.specs.Prelude.{◌≡◌};
ghost use Rattle.normal.specs.Tail.{upper_tail};
ghost use Rattle.normal.specs.Normal.{density_of, norm_pdf, from_zero_to_one, norm_cdf};

use crate::far::tail_far;
use crate::near::{tail_middle, tail_near};
use crate::parts::{half_rest, half_square, on_grid};
use base::{abs, is_nan};
use elementary::exp_two;

// ln sqrt(2 pi), its digits down to 2^-33, and what it lacks.
const PDF_HI: f64 = 0.918938533170148730278015136719;

const PDF_LO: f64 = 3.45240115023146e-11;

// The tail of the normal distribution past y, for y from 0 to 39.
#[tactic(auto, unfolding(crate::specs::Tail::upper_tail))]
pub fn upper_tail(y: f64) -> f64
    ensures { result ≡ upper_tail y }
{
    if y < 1.1932 {
        return tail_near(y);
    }
    if y < 1.7677 {
        return tail_middle(y);
    }
    tail_far(y)
}

// The density at y, for y from 0 to 39.
#[tactic(auto, unfolding(crate::specs::Normal::density_of))]
pub fn density(y: f64) -> f64
    ensures { result ≡ density_of y }
{
    let z = on_grid(y);
    exp_two(-(half_square(z) + PDF_HI), -(half_rest(y, z) + PDF_LO))
}

// The density of the normal distribution; from 39 on it rounds to zero.
#[tactic(auto, unfolding(crate::specs::Normal::norm_pdf))]
pub fn norm_pdf(x: f64) -> f64
    ensures { result ≡ norm_pdf x }
{
    if is_nan(x) {
        return x;
    }
    let y = abs(x);
    if y >= 39.0 {
        return 0.0;
    }
    density(y)
}

// z, which lies from 0 to 1: the tests change no result, and with them the contract shows that none lies outside.
#[tactic(auto, unfolding(crate::specs::Normal::from_zero_to_one))]
fn from_zero_to_one(z: f64) -> f64
    ensures { result ≡ from_zero_to_one z }
{
    if 0.0 < z {
        if z < 1.0 { z } else { 1.0 }
    } else {
        0.0
    }
}

// The normal distribution function; past 39 it rounds to zero and one.
#[tactic(auto, unfolding(crate::specs::Normal::norm_cdf))]
pub fn norm_cdf(x: f64) -> f64
    ensures { result ≡ norm_cdf x }
{
    if is_nan(x) {
        return x;
    }
    if x <= -39.0 {
        return 0.0;
    }
    if x >= 39.0 {
        return 1.0;
    }
    if x < 0.0 {
        return from_zero_to_one(upper_tail(-x));
    }
    from_zero_to_one(1.0 - upper_tail(x))
}
