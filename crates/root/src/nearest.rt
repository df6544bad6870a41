// The whole number nearest to a square root: a guess in f64, then at most four steps of one by comparing squares; where they do not reach it, digit by digit.
ghost use Rattle.std.specs.Prelude.{◌≡◌, ◌+◌, ◌*◌, ◌/◌, ◌<◌, ◌≤◌};
ghost use Rattle.root.specs.Sqrt.{half_below, with_digit, nearest_from};
ghost use Rattle.root.specs.Near.{Digits53, Past, Short};

use base::pattern;

// q·(q + 1) / 2^52, cut to a whole number, by the upper 27 and the lower 26 digits of q.
fn pronic(q: u64) -> u64
    requires { q < 0x20_0000_0000_0000 }
    ensures { result ≡ q * (q + 1) / 0x10_0000_0000_0000 }
{
    let a = q / 0x400_0000;
    let b = q % 0x400_0000;
    let middle = 2 * a * b;
    let low = middle % 0x400_0000 * 0x400_0000 + b * b + q;
    a * a + middle / 0x400_0000 + low / 0x10_0000_0000_0000
}

// A number near the root of s·2^52: a parabola within 0.6 % of it and three of Heron's steps, on s·2^-52 from 1 to 4.
// Only its size is promised: what follows ends at the root from any start, within 58 squares.
fn guess(s: u64) -> u64
    ensures { Digits53 result }
{
    let u = std::num::nearest_u64_to_f64(s) * 2.220446049250313e-16;
    let mut h = 0.519 + u * (0.526 - u * 0.0395);
    for _ in 0..3 {
        h = 0.5 * (h + u / h);
    }
    pattern(h).clamp(0x3ff0_0000_0000_0000, 0x3fff_ffff_ffff_ffff) - 0x3fe0_0000_0000_0000
}

// q with the binary digit b, where q + b - 1/2 lies below the root of s·2^52.
fn with_digit(s: u64, q: u64, b: u64) -> u64
    requires { (0 < b) × (q + b ≤ 0x20_0000_0000_0000) }
    ensures { result ≡ with_digit (half_below (q + b) (s * 0x10_0000_0000_0000)) q b }
{
    let p = pronic(q + b - 1);
    if p < s {
        return q + b;
    }
    q
}

// The nearest root by its 53 binary digits, the first digit first: 53 turns.
fn by_digits(s: u64) -> u64
    ensures { result ≡ nearest_from 53 0 (s * 0x10_0000_0000_0000) }
{
    let mut q = 0;
    for k in 0u64..53 {
        q = with_digit(s, q, 0x10_0000_0000_0000 >> k);
    }
    q
}

// The nearest root from a q that lies below it by more than a half: at most four steps of one up, then by digits.
fn upwards(s: u64, q: u64) -> u64
    requires { (0x10_0000_0000_0000 ≤ s) × (s < 0x3f_ffff_ffff_ffff) × Short s q }
    ensures { result ≡ nearest_from 53 0 (s * 0x10_0000_0000_0000) }
{
    for k in 0..4 {
        let r = q + k + 1;
        if s <= pronic(r) {
            return r;
        }
    }
    by_digits(s)
}

// The nearest root from a q that is past it with its half more: at most four steps of one down, then by digits.
fn downwards(s: u64, q: u64) -> u64
    requires { (0x10_0000_0000_0000 ≤ s) × (s < 0x3f_ffff_ffff_ffff) × Past s q }
    ensures { result ≡ nearest_from 53 0 (s * 0x10_0000_0000_0000) }
{
    for k in 0u64..4 {
        let r = q - k;
        if pronic(r - 1) < s {
            return r;
        }
    }
    by_digits(s)
}

// The whole number nearest to the root of s·2^52: no smaller one is past it with its half more.
pub fn near_root(s: u64) -> u64
    requires { (0x10_0000_0000_0000 ≤ s) × (s < 0x3f_ffff_ffff_ffff) }
    ensures { result ≡ nearest_from 53 0 (s * 0x10_0000_0000_0000) }
{
    let q = guess(s);
    if pronic(q) < s {
        return upwards(s, q);
    }
    downwards(s, q)
}
