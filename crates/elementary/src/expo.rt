// exp by the table-driven algorithm of ARM's optimized routines: exp x = 2^(k/128) exp r.
ghost use Rattle.std.specs.Prelude.{◌≡◌};
ghost use Rattle.elementary.specs.Exp.{reduced, excess, scaled, large, fitted, small, edge, from_row, exp_main, above_zero, exp_two, exp_far, exp_of};

use tabulated::exp_row;

// 128 / ln 2.
const INV_LN2_N: f64 = 184.6649652337873;

// 1.5 * 2^52: a sum with it has no digits below 1.
const SHIFT: f64 = 6755399441055744.0;

// -ln 2 / 128, in two parts: k times the first is exact.
const NEG_LN2_HI_N: f64 = -0.005415212348111709;

const NEG_LN2_LO_N: f64 = -1.2864023111638346e-14;

const C2: f64 = 0.49999999999996786;

const C3: f64 = 0.16666666666665886;

const C4: f64 = 0.0416666808410674;

const C5: f64 = 0.008333335853059549;

// x - k ln 2 / 128.
#[tactic(auto, unfolding(crate::specs::Exp::reduced))]
fn reduced(x: f64, k: f64) -> f64
    ensures { result ≡ reduced x k }
{
    x + k * NEG_LN2_HI_N + k * NEG_LN2_LO_N
}

// (1 + tail) exp r - 1.
#[tactic(auto, unfolding(crate::specs::Exp::excess))]
fn excess(tail: f64, r: f64) -> f64
    ensures { result ≡ excess tail r }
{
    let r2 = r * r;
    tail + r + r2 * (C2 + r * C3) + r2 * r2 * (C4 + r * C5)
}

// scale (1 + t).
#[tactic(auto, unfolding(crate::specs::Exp::scaled))]
fn scaled(scale: f64, t: f64) -> f64
    ensures { result ≡ scaled scale t }
{
    scale + scale * t
}

// The scale 2^-1009 times as large, so that it is a double, and the result times 2^1009.
#[tactic(auto, unfolding(crate::specs::Exp::large))]
fn large(sbits: u64, t: f64) -> f64
    ensures { result ≡ large sbits t }
{
    let scale = base::double(std::num::wrapping_add_u64(sbits, 0xc0f0_0000_0000_0000));
    5.486124068793689e303 * scaled(scale, t)
}

// A y below 1 rounded to a multiple of 2^-52, so that a subnormal result is rounded once.
#[tactic(auto, unfolding(crate::specs::Exp::fitted, crate::specs::Exp::refitted))]
fn fitted(scale: f64, t: f64, y: f64) -> f64
    ensures { result ≡ fitted scale t y }
{
    if y < 1.0 {
        let lo = scale - y + scale * t;
        let hi = 1.0 + y;
        let rest = 1.0 - hi + y + lo;
        return hi + rest - 1.0;
    }
    y
}

// The scale 2^1022 times as large, and the result times 2^-1022.
#[tactic(auto, unfolding(crate::specs::Exp::small))]
fn small(sbits: u64, t: f64) -> f64
    ensures { result ≡ small sbits t }
{
    let scale = base::double(std::num::wrapping_add_u64(sbits, 0x3fe0_0000_0000_0000));
    2.2250738585072014e-308 * fitted(scale, t, scaled(scale, t))
}

// Where scale or result may leave the doubles' range: bit 31 of ki is the sign of k.
#[tactic(auto, unfolding(crate::specs::Exp::edge))]
fn edge(ki: u64, sbits: u64, t: f64) -> f64
    ensures { result ≡ edge ki sbits t }
{
    if ki / 0x8000_0000 % 2 == 0 {
        return large(sbits, t);
    }
    small(sbits, t)
}

// The result from the shifted k's pattern and the reduced argument. The scale's pattern is taken modulo 2^64: for a large |k| its exponent runs
// over into the sign, and `edge` puts it right.
#[tactic(auto, unfolding(crate::specs::Exp::ended, crate::specs::Exp::row_tail, crate::specs::Exp::scale_bits))]
fn from_row(x: f64, ki: u64, r: f64) -> f64
    ensures { result ≡ from_row x ki r }
{
    let row = exp_row(ki % 128);
    let sbits = std::num::wrapping_add_u64(row.scale, ki % 0x8_0000 * 0x2000_0000_0000);
    let t = excess(base::double(row.tail), r);
    if base::abs(x) < 512.0 {
        return scaled(base::double(sbits), t);
    }
    edge(ki, sbits, t)
}

// exp x for |x| from 2^-54 to 1024: the last digits of shifted are the whole number k nearest to 128 x / ln 2.
#[tactic(auto, unfolding(crate::specs::Exp::exp_main))]
fn exp_main(x: f64) -> f64
    ensures { result ≡ exp_main x }
{
    let shifted = INV_LN2_N * x + SHIFT;
    from_row(x, base::pattern(shifted), reduced(x, shifted - SHIFT))
}

// z, which is never below zero: the test changes no result, and with it the contract shows that none is.
#[tactic(auto, unfolding(crate::specs::Exp::above_zero))]
fn above_zero(z: f64) -> f64
    ensures { result ≡ above_zero z }
{
    if 0.0 < z { z } else { 0.0 }
}

// exp(x + low) for |x| from 2^-54 to 1024 and a low far below it, which the rounded sum x + low would lose.
#[tactic(auto, unfolding(crate::specs::Exp::exp_two))]
pub fn exp_two(x: f64, low: f64) -> f64
    ensures { result ≡ exp_two x low }
{
    let shifted = INV_LN2_N * x + SHIFT;
    above_zero(from_row(x, base::pattern(shifted), reduced(x, shifted - SHIFT) + low))
}

// Overflow, underflow, the infinities and NaN.
#[tactic(auto, unfolding(crate::specs::Exp::exp_far))]
fn exp_far(x: f64) -> f64
    ensures { result ≡ exp_far x }
{
    if x < 0.0 {
        return 0.0;
    }
    if 0.0 < x {
        return base::infinity();
    }
    x
}

// e to the power of x.
#[tactic(auto, unfolding(crate::specs::Exp::exp_of))]
pub fn exp(x: f64) -> f64
    ensures { result ≡ exp_of x }
{
    let size = base::abs(x);
    if size < 5.551115123125783e-17 {
        return 1.0 + x;
    }
    if size < 1024.0 {
        return above_zero(exp_main(x));
    }
    exp_far(x)
}
