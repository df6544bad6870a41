// ln(1 + x): fdlibm's algorithm with the decisions and the order of operations of musl's log1p.c (docs/ELEMENTARY.md).
ghost use Rattle.std.specs.Prelude.{◌≡◌};
ghost use Rattle.elementary.specs.Log1p.{tail_of, lost_of, far_of, ln1p_main, ln1p_of};

use crate::parts::{LN2_HI, LN2_LO};
use base::{abs, double, infinity, is_nan, pattern};

// 2^-53.
const TINY: f64 = 1.1102230246251565e-16;

// Just above 1 - sqrt(1/2) and sqrt(2) - 1: between -LOW and HIGH no power of two is taken out.
const LOW: f64 = 0.292893648147583;

const HIGH: f64 = 0.4142136573791504;

const L1: f64 = 6.666666666666735130e-01;

const L2: f64 = 3.999999999940941908e-01;

const L3: f64 = 2.857142874366239149e-01;

const L4: f64 = 2.222219843214978396e-01;

const L5: f64 = 1.818357216161805012e-01;

const L6: f64 = 1.531383769920937332e-01;

const L7: f64 = 1.479819860511658591e-01;

// ln(1 + f) + k ln 2 + c: with s = f / (2 + f), ln(1 + f) is f - f²/2 + s·(f²/2 + a polynomial in s²).
#[tactic(auto, unfolding(crate::specs::Log1p::tail_of))]
fn tail(f: f64, k: f64, c: f64) -> f64
    ensures { result ≡ tail_of f k c }
{
    let h = 0.5 * f * f;
    let s = f / (2.0 + f);
    let z = s * s;
    let w = z * z;
    let even = w * (L2 + w * (L4 + w * L6));
    let odd = z * (L1 + w * (L3 + w * (L5 + w * L7)));
    s * (h + (odd + even)) + (k * LN2_LO + c) - h + f + k * LN2_HI
}

// What the sum u = 1 + x lost to rounding, over u; n - 1023 is the power of two in u.
#[tactic(auto, unfolding(crate::specs::Log1p::lost_of))]
fn lost(x: f64, u: f64, n: u64) -> f64
    ensures { result ≡ lost_of x u n }
{
    if n >= 1077 {
        return 0.0;
    }
    if n >= 1025 {
        return (1.0 - (u - x)) / u;
    }
    (x - (u - 1.0)) / u
}

// u = 1 + x is 2^(n - 1023)·(1 + f), with 1 + f from sqrt(1/2) to sqrt(2).
#[tactic(auto, unfolding(crate::specs::Log1p::far_of, crate::specs::Log1p::split_of))]
fn far(x: f64) -> f64
    ensures { result ≡ far_of x }
{
    let u = 1.0 + x;
    let b = pattern(u) % 0x8000_0000_0000_0000 + 0x9_5f62_0000_0000;
    let n = b / 0x10_0000_0000_0000;
    let m = double(b % 0x10_0000_0000_0000 + 0x3fe6_a09e_0000_0000);
    let k = std::num::nearest_u64_to_f64(n) - 1023.0;
    tail(m - 1.0, k, lost(x, u, n))
}

// For a finite x above -1.
#[tactic(auto, unfolding(crate::specs::Log1p::ln1p_main))]
fn published(x: f64) -> f64
    ensures { result ≡ ln1p_main x }
{
    if abs(x) < TINY {
        return x;
    }
    if x <= -LOW || x >= HIGH {
        return far(x);
    }
    tail(x, 0.0, 0.0)
}

// ln(1 + x).
#[tactic(auto, using(base::proofs::Doubles::no_quotient, crate::proofs::Infinite::minus_infinity), unfolding(crate::specs::Log1p::ln1p_of))]
pub fn ln_1p(x: f64) -> f64
    ensures { result ≡ ln1p_of x }
{
    if is_nan(x) {
        return x;
    }
    if x < -1.0 {
        return 0.0 / 0.0;
    }
    if x == -1.0 {
        return -infinity();
    }
    if x == infinity() {
        return x;
    }
    published(x)
}
