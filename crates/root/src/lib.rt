// The square root of a double, nearest to the root, from operations and bits.
#![tactic(auto)]

mod nearest;

ghost use Rattle.std.specs.Prelude.{◌≡◌, ◌+◌, ◌*◌, ◌^◌, ◌<◌, ◌≤◌};
ghost use Rattle.base.specs.Number.{bits};
ghost use Rattle.root.specs.Sqrt.{root_of, units_of, sqrt_of};
ghost use Rattle.root.specs.Near.{Digits53, AboveZero};

use base::{double, infinity, is_nan, pattern};
use nearest::near_root;

// The root of s·2^(e - 1139), for an s of 53 binary digits: twice s where the exponent is odd.
fn root_at(s: u64, e: u64) -> f64
    requires { Digits53 s × (e ≤ 2110) }
    ensures { result ≡ root_of (s * 2 ^ (e + 1009)) }
{
    let k = (e + 957) / 2 * 0x10_0000_0000_0000;
    let near = near_root(if e % 2 == 0 { s * 2 } else { s });
    double(k + near)
}

// The root of t·2^-1074, a number below the normal ones: t is doubled until it has 53 digits, by one shift.
fn root_small(t: u64) -> f64
    requires { (0 < t) × (t < 0x10_0000_0000_0000) }
    ensures { result ≡ root_of (t * 2 ^ 1074) }
{
    let n = t.leading_zeros() as u64 - 11;
    root_at(t << n, 65 - n)
}

// The root of a number above zero with the bits b.
fn root_above(b: u64) -> f64
    requires { AboveZero b }
    ensures { result ≡ root_of (units_of (bits b) * 2 ^ 1074) }
{
    let e = b / 0x10_0000_0000_0000;
    let t = b % 0x10_0000_0000_0000;
    if e == 0 {
        return root_small(t);
    }
    root_at(t + 0x10_0000_0000_0000, e + 64)
}

// The double nearest to the root of x. A zero keeps its sign; a NaN and a number below zero give NaN.
pub fn sqrt(x: f64) -> f64
    ensures { result ≡ sqrt_of x }
{
    if is_nan(x) {
        return x;
    }
    if x < 0.0 {
        return 0.0 / 0.0;
    }
    if x == 0.0 {
        return x; // with its sign
    }
    if x == infinity() {
        return x;
    }
    root_above(pattern(x))
}
