// Single doubles: bit patterns, and Rust's tests and choices.
ghost use Rattle.std.specs.Prelude.{◌≡◌, false};
ghost use Rattle.std.specs.Float.{inf, binary64};
ghost use Rattle.std.specs.Float.Ieee.{is_nan, to_bits};
ghost use Rattle.base.specs.Number.{bits, finite, infinite, negative, abs_f, max_f, clamp_f};

// E, 2^-52.
pub const EPSILON: f64 = 2.220446049250313e-16;

// The largest finite double.
pub const MAX: f64 = 1.7976931348623157e308;

// Only a NaN differs from itself.
pub fn is_nan(x: f64) -> bool
    ensures { result ≡ is_nan x }
{
    x != x
}

// The bits of x, the sign highest; of any NaN the one pattern 7FF8000000000000.
pub fn pattern(x: f64) -> u64
    ensures { result ≡ to_bits binary64 x }
{
    if is_nan(x) {
        return 0x7ff8_0000_0000_0000;
    }
    f64::to_bits(x)
}

// The double of a bit pattern, whatever it is: each NaN's pattern gives a NaN.
pub fn double(n: u64) -> f64
    ensures { result ≡ bits n }
{
    if 0x7ff0_0000_0000_0000 < n % 0x8000_0000_0000_0000 {
        return 0.0 / 0.0;
    }
    f64::from_bits(n)
}

// +infinity, which no constant can hold.
pub fn infinity() -> f64
    ensures { result ≡ inf false }
{
    f64::from_bits(0x7ff0_0000_0000_0000)
}

// Strictly between the infinities: a NaN fails both tests.
pub fn is_finite(x: f64) -> bool
    ensures { result ≡ finite x }
{
    let m = infinity();
    x < m && -m < x
}

// Infinite, of either sign.
pub fn is_infinite(x: f64) -> bool
    ensures { result ≡ infinite x }
{
    !is_finite(x) && !is_nan(x)
}

// The sign bit, which -0.0 has too; false of a NaN.
pub fn is_sign_negative(x: f64) -> bool
    ensures { result ≡ negative x }
{
    0x8000_0000_0000_0000 <= pattern(x)
}

// x without its sign: +0.0 of -0.0.
pub fn abs(x: f64) -> f64
    ensures { result ≡ abs_f x }
{
    if is_sign_negative(x) { -x } else { x }
}

// The larger; of one NaN and a number the number, of two equal numbers the second.
pub fn max(a: f64, b: f64) -> f64
    ensures { result ≡ max_f a b }
{
    if b < a || is_nan(b) { a } else { b }
}

// x, or the end of lo to hi that it lies past; a NaN stays.
pub fn clamp(lo: f64, hi: f64, x: f64) -> f64
    ensures { result ≡ clamp_f lo hi x }
{
    if x < lo {
        return lo;
    }
    if hi < x {
        return hi;
    }
    x
}
