// ln_gamma: fdlibm's algorithm with the decisions of musl's lgamma_r.c, and from 8 on with ln x in two parts (docs/ELEMENTARY.md).
ghost use Rattle.std.specs.Prelude.{◌≡◌};
ghost use Rattle.log_gamma.specs.LogGamma.{next_of, below_two, product_of, below_eight, series_of, stirling_of, ln_gamma_of};

use crate::near::{about_least, about_one, about_two, below_three};
use base::{double, infinity, is_nan, pattern};
use elementary::{LN2_HI, LN2_LO, ln};

// Where ln gamma is least, and that less 1.
const TC: f64 = 1.46163214496836224576e+00;

const TC1: f64 = 0.46163214496836224576;

// W, from 8 on.
const W0: f64 = 4.18938533204672725052e-01;

const W1: f64 = 8.33333333333329678849e-02;

const W2: f64 = -2.77777777728775536470e-03;

const W3: f64 = 7.93650558643019558500e-04;

const W4: f64 = -5.95187557450339963135e-04;

const W5: f64 = 8.36339918996282139126e-04;

const W6: f64 = -1.63092934096575273989e-03;

// ln gamma(1 + x), for x from 0 to 0.9.
#[tactic(auto, unfolding(crate::specs::LogGamma::next_of))]
fn next(x: f64) -> f64
    ensures { result ≡ next_of x }
{
    if x >= 0.7315998077392578 {
        return about_two(1.0 - x);
    }
    if x >= 0.23163998126983643 {
        return about_least(x - TC1);
    }
    about_one(x)
}

// ln gamma(x), for x from 0.9 to 2, but for the sign of its zero at 1.
#[tactic(auto, unfolding(crate::specs::LogGamma::below_two))]
fn below_two(x: f64) -> f64
    ensures { result ≡ below_two x }
{
    if x >= 1.7316312789916992 {
        return about_two(2.0 - x);
    }
    if x >= 1.2316322326660156 {
        return about_least(x - TC);
    }
    about_one(x - 1.0)
}

// ln(z gamma(v)), for v from 2 to 3.
#[tactic(auto, unfolding(crate::specs::LogGamma::product_of))]
fn product(v: f64, z: f64) -> f64
    ensures { result ≡ product_of v z }
{
    below_three(v) + ln(z)
}

// ln gamma(x), for x from 2 to 8: gamma(v) is (v - 1) gamma(v - 1), down to a v below 3. The differences are exact.
#[tactic(auto, using(crate::proofs::Lowered::lowered_on, crate::proofs::Lowered::lowered_off, crate::proofs::Lowered::lowered_end), unfolding(crate::specs::LogGamma::below_eight))]
fn below_eight(x: f64) -> f64
    ensures { result ≡ below_eight x }
{
    let mut v = x;
    let mut z = 1.0;
    for i in 0u64..5 {
        if v < 3.0 {
            return product(v, z);
        }
        v = v - 1.0;
        z = z * v;
    }
    product(v, z)
}

// ln sqrt(2 pi) - 1/2 and the series in 1/x.
#[tactic(auto, unfolding(crate::specs::LogGamma::series_of))]
fn series(x: f64) -> f64
    ensures { result ≡ series_of x }
{
    let z = 1.0 / x;
    let y = z * z;
    W0 + z * (W1 + y * (W2 + y * (W3 + y * (W4 + y * (W5 + y * W6)))))
}

// From 8 on: (x - 1/2)(ln x - 1) and the series, where x is 2^k m and ln x is k ln 2 + ln m.
#[tactic(auto, unfolding(crate::specs::LogGamma::stirling_of, crate::specs::LogGamma::stirling_by))]
fn stirling(x: f64) -> f64
    ensures { result ≡ stirling_of x }
{
    let n = pattern(x);
    let k = std::num::nearest_u64_to_f64(n / 0x10_0000_0000_0000) - 1023.0;
    let m = double(n % 0x10_0000_0000_0000 + 0x3ff0_0000_0000_0000);
    let a = x - 0.5;
    a * (k * LN2_HI - 1.0) + (a * (ln(m) + k * LN2_LO) + series(x))
}

// The logarithm of gamma(x), for x from 0 on; below zero NaN.
#[tactic(auto, using(base::proofs::Doubles::no_quotient), unfolding(crate::specs::LogGamma::ln_gamma_of))]
pub fn ln_gamma(x: f64) -> f64
    ensures { result ≡ ln_gamma_of x }
{
    if is_nan(x) {
        return x;
    }
    if x < 0.0 {
        return 0.0 / 0.0;
    }
    if x < 0.9000000953674316 {
        return -ln(x) + next(x);
    }
    if x < 2.0 {
        return 0.0 + below_two(x);
    }
    if x < 8.0 {
        return below_eight(x);
    }
    if x == infinity() {
        return x;
    }
    stirling(x)
}
