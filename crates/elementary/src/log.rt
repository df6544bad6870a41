// ln by the table-driven algorithm of ARM's optimized routines: x = 2^k z, ln x = k ln 2 + ln c + ln(z/c).
ghost use Rattle.std.specs.Prelude.{◌≡◌, ◌<◌};
ghost use Rattle.elementary.specs.LogPoly.{near_poly, near_sum, near_of, ln_sum};
ghost use Rattle.elementary.specs.Log.{near_one, ln_near, ln_row, ln_main, ln_far, ln_of};

use tabulated::log_row;

// ln 2, in two parts: k times the first is exact.
const LOG_LN2_HI: f64 = 0.6931471805598903;

const LOG_LN2_LO: f64 = 5.497923018708371e-14;

const A0: f64 = -0.5000000000000001;

const A1: f64 = 0.33333333331825593;

const A2: f64 = -0.2499999999622955;

const A3: f64 = 0.20000304511814496;

const A4: f64 = -0.16667054827627667;

const B0: f64 = -0.5;

const B1: f64 = 0.3333333333333352;

const B2: f64 = -0.24999999999998432;

const B3: f64 = 0.19999999999320328;

const B4: f64 = -0.16666666669929706;

const B5: f64 = 0.14285715076560868;

const B6: f64 = -0.12499997863982555;

const B7: f64 = 0.11110712032936046;

const B8: f64 = -0.10000486757818193;

const B9: f64 = 0.09181994006195467;

const B10: f64 = -0.08328363062289341;

// r^3 (B1 + B2 r + .. + B10 r^9), in three groups of three.
#[tactic(auto, unfolding(crate::specs::LogPoly::near_poly))]
fn near_poly(r: f64, r2: f64, r3: f64) -> f64
    ensures { result ≡ near_poly r r2 r3 }
{
    let top = B7 + r * B8 + r2 * B9 + r3 * B10;
    let middle = B4 + r * B5 + r2 * B6 + r3 * top;
    r3 * (B1 + r * B2 + r2 * B3 + r3 * middle)
}

// y + r - r^2 / 2, the square by the upper half of r, whose square is exact, and the rest.
#[tactic(auto, unfolding(crate::specs::LogPoly::near_sum))]
fn near_sum(y: f64, r: f64) -> f64
    ensures { result ≡ near_sum y r }
{
    let w = r * 134217728.0;
    let high = r + w - w;
    let low = r - high;
    let v = high * high * B0;
    let hi = r + v;
    let lo = r - hi + v + B0 * low * (high + r);
    y + lo + hi
}

// ln(1 + r) for small r.
#[tactic(auto, unfolding(crate::specs::LogPoly::near_of))]
fn near(r: f64) -> f64
    ensures { result ≡ near_of r }
{
    let r2 = r * r;
    near_sum(near_poly(r, r2, r * r2), r)
}

// ln near 1, where a sum with ln c would lose digits.
#[tactic(auto, unfolding(crate::specs::Log::ln_near))]
fn ln_near(x: f64) -> f64
    ensures { result ≡ ln_near x }
{
    if x == 1.0 {
        return 0.0;
    }
    near(x - 1.0)
}

// Whether |ln x| is below 2^-4 or little more.
#[tactic(auto, unfolding(crate::specs::Log::near_one))]
fn near_one(x: f64) -> bool
    ensures { result ≡ near_one x }
{
    0.9375 <= x && x < 1.064697265625
}

// k ln 2 + ln c + ln(1 + r), where w is ln c and the first part of k ln 2.
#[tactic(auto, unfolding(crate::specs::LogPoly::ln_sum))]
fn ln_sum(k: f64, r: f64, w: f64) -> f64
    ensures { result ≡ ln_sum k r w }
{
    let hi = w + r;
    let lo = w - hi + r + k * LOG_LN2_LO;
    let r2 = r * r;
    lo + r2 * A0 + r * r2 * (A1 + r * A2 + r2 * (A3 + r * A4)) + hi
}

// k ln 2 + ln z, by row i of the table.
#[tactic(auto, unfolding(crate::specs::Log::ln_row))]
fn ln_row(i: u64, z: f64, k: f64) -> f64
    requires { i < 128 }
    ensures { result ≡ ln_row i z k }
{
    let row = log_row(i);
    ln_sum(
        k,
        (z - row.centre - row.rest) * row.inverse,
        k * LOG_LN2_HI + row.log,
    )
}

// ln x for a normal x above zero: t is its pattern less that of 0.6875, plus 1024 * 2^52. So k is t / 2^52 - 1024, and z,
// from 0.6875 to 1.375, has the pattern of 0.6875 plus the rest. Of an x that was scaled by 2^52 the bias is 1076.
#[tactic(auto, unfolding(crate::specs::Log::ln_main))]
fn ln_main(x: f64, bias: f64) -> f64
    ensures { result ≡ ln_main x bias }
{
    let t = base::pattern(x) % 0x8000_0000_0000_0000 + 0x1a_0000_0000_0000;
    let i = t / 0x2000_0000_0000 % 128;
    let z = f64::from_bits(0x3fe6_0000_0000_0000 + t % 0x10_0000_0000_0000);
    let k = std::num::nearest_u64_to_f64(t / 0x10_0000_0000_0000) - bias;
    ln_row(i, z, k)
}

// ln but near 1: the zeros, numbers below zero, subnormal numbers, the rest, and last +infinity and NaN.
#[tactic(auto, using(base::proofs::Doubles::no_quotient, crate::proofs::Infinite::minus_infinity), unfolding(crate::specs::Log::ln_far))]
fn ln_far(x: f64) -> f64
    ensures { result ≡ ln_far x }
{
    if x == 0.0 {
        return -base::infinity();
    }
    if x < 0.0 {
        return 0.0 / 0.0;
    }
    if x < 2.2250738585072014e-308 {
        return ln_main(x * 4503599627370496.0, 1076.0);
    }
    if x <= base::MAX {
        return ln_main(x, 1024.0);
    }
    x
}

// The natural logarithm of x.
#[tactic(auto, unfolding(crate::specs::Log::ln_of))]
pub fn ln(x: f64) -> f64
    ensures { result ≡ ln_of x }
{
    if near_one(x) {
        return ln_near(x);
    }
    ln_far(x)
}
