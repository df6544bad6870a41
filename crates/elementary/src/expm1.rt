// exp(x) - 1: fdlibm's algorithm with the decisions and the order of operations of musl's expm1.c (docs/ELEMENTARY.md).
ghost use Rattle.std.specs.Prelude.{◌≡◌};
ghost use Rattle.elementary.specs.Expm1.{quotient_of, rest_of, scaled_of, grown_of, shrunk_of, rising_of, falling_of, expm1_main, above_minus_one, expm1_of};

use crate::parts::{LN2_HI, LN2_LO, inverse_power, power, whole};
use base::{abs, is_nan};

const INV_LN2: f64 = 1.44269504088896338700e+00;

// Past this exp(x) is past the largest double.
const OVERFLOW: f64 = 7.09782712893383973096e+02;

// Just below 56 ln 2: from its negative down exp(x) - 1 rounds to -1.
const MANY_LN2: f64 = 38.816223144531250;

// Just below 1.5 ln 2 and just above 0.5 ln 2, where the reduction of the argument changes.
const THREE_HALVES_LN2: f64 = 1.0397205352783203;

const HALF_LN2: f64 = 0.3465735912322998;

// 2^-54.
const TINY: f64 = 5.551115123125783e-17;

const Q1: f64 = -3.33333333333331316428e-02;

const Q2: f64 = 1.58730158725481460165e-03;

const Q3: f64 = -7.93650757867487942473e-05;

const Q4: f64 = 4.00821782732936239552e-06;

const Q5: f64 = -2.01099218183624371326e-07;

// With p near (6 / r)·((e^r + 1) / (e^r - 1) - 2 / r), a polynomial in r²/2: (r²/2)·(p - t) / (6 - r·t), where t = 3 - p·r/2.
#[tactic(auto, unfolding(crate::specs::Expm1::quotient_of))]
fn quotient(r: f64) -> f64
    ensures { result ≡ quotient_of r }
{
    let h = 0.5 * r;
    let s = r * h;
    let p = 1.0 + s * (Q1 + s * (Q2 + s * (Q3 + s * (Q4 + s * Q5))));
    let t = 3.0 - p * h;
    s * ((p - t) / (6.0 - r * t))
}

// r - expm1(r + c), for a small c.
#[tactic(auto, unfolding(crate::specs::Expm1::rest_of))]
fn rest(r: f64, c: f64) -> f64
    ensures { result ≡ rest_of r c }
{
    let e = quotient(r);
    r * (e - c) - c - r * (0.5 * r)
}

// 2^m·(1 + r - e) - 1, for m from 2 to 1024.
#[tactic(auto, unfolding(crate::specs::Expm1::scaled_of))]
fn scaled(r: f64, e: f64, m: u64) -> f64
    ensures { result ≡ scaled_of r e m }
{
    if m == 1024 {
        return (r - e + 1.0) * 2.0 * 8.98846567431158e307 - 1.0;
    }
    if m > 56 {
        return (r - e + 1.0) * power(m) - 1.0;
    }
    let t = inverse_power(m);
    if m < 20 {
        return (r - e + (1.0 - t)) * power(m);
    }
    (r - (e + t) + 1.0) * power(m)
}

// exp(x) - 1, where x is m ln 2 and hi - lo.
#[tactic(auto, unfolding(crate::specs::Expm1::grown_of, crate::specs::Expm1::up_of))]
fn grown(hi: f64, lo: f64, m: u64) -> f64
    ensures { result ≡ grown_of hi lo m }
{
    let r = hi - lo;
    let e = rest(r, (hi - r) - lo);
    if m == 1 {
        if r < -0.25 {
            return -2.0 * (e - (r + 0.5));
        }
        return 1.0 + 2.0 * (r - e);
    }
    scaled(r, e, m)
}

// exp(x) - 1, where x is -m ln 2 and hi - lo.
#[tactic(auto, unfolding(crate::specs::Expm1::shrunk_of, crate::specs::Expm1::down_of))]
fn shrunk(hi: f64, lo: f64, m: u64) -> f64
    ensures { result ≡ shrunk_of hi lo m }
{
    let r = hi - lo;
    let e = rest(r, (hi - r) - lo);
    if m == 1 {
        return 0.5 * (r - e) - 0.5;
    }
    (r - e + 1.0) * inverse_power(m) - 1.0
}

// For x above ln 2 / 2.
#[tactic(auto, unfolding(crate::specs::Expm1::rising_of, crate::specs::Expm1::grown_by))]
fn rising(x: f64) -> f64
    ensures { result ≡ rising_of x }
{
    if x < THREE_HALVES_LN2 {
        return grown(x - LN2_HI, LN2_LO, 1);
    }
    let m = whole(INV_LN2 * x + 0.5);
    let t = std::num::nearest_u64_to_f64(m);
    grown(x - t * LN2_HI, t * LN2_LO, m)
}

// For x below -ln 2 / 2.
#[tactic(auto, unfolding(crate::specs::Expm1::falling_of, crate::specs::Expm1::shrunk_by))]
fn falling(x: f64) -> f64
    ensures { result ≡ falling_of x }
{
    if x > -THREE_HALVES_LN2 {
        return shrunk(x + LN2_HI, -LN2_LO, 1);
    }
    let m = whole(-(INV_LN2 * x - 0.5));
    let t = -std::num::nearest_u64_to_f64(m);
    shrunk(x - t * LN2_HI, t * LN2_LO, m)
}

// The published algorithm, for x other than NaN.
#[tactic(auto, unfolding(crate::specs::Expm1::expm1_main))]
fn published(x: f64) -> f64
    ensures { result ≡ expm1_main x }
{
    if x > OVERFLOW {
        return x * 8.98846567431158e307;
    }
    if x <= -MANY_LN2 {
        return -1.0;
    }
    let size = abs(x);
    if size < TINY {
        return x;
    }
    if size < HALF_LN2 {
        return x - (x * quotient(x) - x * (0.5 * x));
    }
    if x < 0.0 { falling(x) } else { rising(x) }
}

// The guard that makes two promises plain: no NaN, and never below -1. It changes no value.
#[tactic(auto, unfolding(crate::specs::Expm1::above_minus_one))]
fn above_minus_one(z: f64) -> f64
    ensures { result ≡ above_minus_one z }
{
    if z > -1.0 { z } else { -1.0 }
}

// exp(x) - 1.
#[tactic(auto, unfolding(crate::specs::Expm1::expm1_of))]
pub fn exp_m1(x: f64) -> f64
    ensures { result ≡ expm1_of x }
{
    if is_nan(x) {
        return x;
    }
    above_minus_one(published(x))
}
