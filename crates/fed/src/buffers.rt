// Arrays of which a call is lent the beginnings: every place holds 9.25 before it.
ghost use Rattle.std.specs.Prelude.{◌≡◌, ◌≢◌, ℕ, ◌<◌, ◌≤◌, length};
ghost use Rattle.std.specs.Float.{binary64};
ghost use Rattle.std.specs.Float.Ieee.{to_bits};
ghost use Rattle.base.specs.Sum.{◌!◌};

use super::count;

// The pattern of 9.25.
pub const LENT: u64 = 0x4022_8000_0000_0000;

// As many as the next count says, or all where there are fewer.
pub fn lent<T>(xs: &mut [T]) -> &mut [T] {
    let n = count().min(xs.len());
    &mut xs[..n]
}

// The first place from `at` on that holds another pattern, or where the list ends.
pub fn first_other(xs: &[f64], at: usize, pattern: u64) -> usize
    ensures before { (k : ℕ) → at ≤ k → k < result → to_bits binary64 (xs.now ! k) ≡ pattern }
    ensures found { result < length xs.now → to_bits binary64 (xs.now ! result) ≢ pattern }
{
    for i in at..xs.len() {
        if base::pattern(xs[i]) != pattern {
            return i;
        }
    }
    xs.len()
}

// A work slice: how many +0.0 it begins with, and where what follows is no longer as lent.
pub fn put_work(word: &[u8], xs: &[f64]) {
    let zeros = first_other(xs, 0, 0);
    text::put_word(word);
    text::put_count(zeros as u64);
    text::put_count(first_other(xs, zeros, LENT) as u64);
}
