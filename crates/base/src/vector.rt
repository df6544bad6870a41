// Sums, fills and tests over lent slices. A slice may be longer than what is asked of it: the rest is not read and not written.
ghost use Rattle.std.specs.Prelude.{◌≡◌, ◌+◌, ◌*◌, ◌≤◌, ◌<◌, ◌^◌, length};
ghost use Rattle.base.specs.Sum.{sum_to, all_to, dot_of, product_from, finite_at};
ghost use Rattle.base.specs.List.{fill_to, zero_at, entry_of};

use crate::number::is_finite;

// Where row i of n rows of p numbers begins. That it ends within n * p makes every index after it linear.
pub fn offset(i: usize, n: usize, p: usize) -> usize
    requires { (i < n) × (n * p < 2 ^ 64) }
    ensures { (result ≡ i * p) × (result + p ≤ n * p) }
{
    i * p
}

// The sum of a[i] * b[i] over i below n.
pub fn dot(a: &[f64], b: &[f64], n: usize) -> f64
    requires { (n ≤ length a.now) × (n ≤ length b.now) }
    ensures { result ≡ dot_of n a.now b.now }
{
    let mut sum = 0.0;
    for i in 0..n {
        sum = sum + a[i] * b[i];
    }
    sum
}

// The sum of a[o + i] * b[i] over i below n: a row of a matrix, say, times b.
pub fn dot_from(a: &[f64], o: usize, b: &[f64], n: usize) -> f64
    requires { (o + n ≤ length a.now) × (n ≤ length b.now) }
    ensures { result ≡ sum_to n (product_from a.now o b.now) }
{
    let mut sum = 0.0;
    for i in 0..n {
        sum = sum + a[o + i] * b[i];
    }
    sum
}

// +0.0 into the first n places.
pub fn wipe(out: &mut [f64], n: usize)
    requires { n ≤ length out.old }
    ensures { out.new ≡ fill_to n zero_at out.old }
{
    out[..n].fill(0.0);
}

// The first n numbers of a into the first n places of out. A loop: by std's copy_from_slice the C archives would ask for memmove too (docs/EMBEDDED.md).
pub fn copy(a: &[f64], out: &mut [f64], n: usize)
    requires { (n ≤ length a.now) × (n ≤ length out.old) }
    ensures { out.new ≡ fill_to n (entry_of a.now) out.old }
{
    for i in 0..n {
        out[i] = a[i];
    }
}

// Whether the first n numbers of a are all finite.
pub fn all_finite(a: &[f64], n: usize) -> bool
    requires { n ≤ length a.now }
    ensures { result ≡ all_to n (finite_at a.now) }
{
    a[..n].iter().all(|x| is_finite(*x))
}
