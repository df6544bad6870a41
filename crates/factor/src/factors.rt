// LDL' and Cholesky, row by row, so that every entry needs only entries before it.
ghost use Rattle.std.specs.Prelude.{◌≡◌, true, ◌&&◌, ◌+◌, ◌-◌, ◌*◌, ◌^◌, ◌≤◌, ◌<◌, length};
ghost use Rattle.base.specs.Number.{finite};
ghost use Rattle.base.specs.Sum.{◌!◌, all_to};
ghost use Rattle.base.specs.List.{at};
ghost use Rattle.factor.specs.Triangle.{rows_dot, row_by};
ghost use Rattle.factor.specs.Heads.{Zeros, FineRows, next_head, RowLeaves};
ghost use Rattle.factor.specs.Factor.{ldl_term, ldl_sum, LdlLeaves, cholesky_rule, CholeskyLeaves};

use crate::pivots::{positive_pivot, usable_pivot};

// The sum over the columns before j of (l_ik * l_jk) * d_k, begun at head: zeros before it leave the sum at +0.0.
fn ldl_sum(x: &[f64], s: usize, i: usize, j: usize, head: usize) -> f64
    requires { (j ≤ i) × (i < s) × (s * s ≤ length x.now) × (head ≤ j) × Zeros 0 head (ldl_term s (λ k. x.now ! k) i j) }
    ensures { result ≡ ldl_sum s (λ k. x.now ! k) i j }
{
    let io = base::offset(i, s, s);
    let jo = base::offset(j, s, s);
    let mut sum = 0.0;
    for k in head..j {
        let ko = base::offset(k, s, s);
        sum = sum + (x[io + k] * x[jo + k]) * x[ko + k];
    }
    sum
}

// Where the sums of a row begin once its entry j is l.
fn next_head(allowed: bool, head: usize, j: usize, l: f64) -> usize
    requires { j < 2 ^ 64 - 1 }
    ensures { result ≡ next_head allowed head j l }
{
    if allowed && head == j && l == 0.0 {
        j + 1
    } else {
        head
    }
}

// Row i of L, up to its diagonal: the rows before it are done. Its sums leave out the zeros at its head where all these rows are fine: finite.
fn ldl_row(a: &[f64], s: usize, i: usize, fine: bool, out: &mut [f64]) -> usize
    requires { (i < s) × (s * s ≤ length a.now) × (s * s ≤ length out.old) × (fine ≡ true → FineRows s out.old i) }
    ensures { RowLeaves s a.now out.old i fine result out.new }
{
    let io = base::offset(i, s, s);
    let mut head = 0;
    for j in 0..i {
        let jo = base::offset(j, s, s);
        let sum = ldl_sum(out, s, i, j, head);
        let l = (a[io + j] - sum) / out[jo + j];
        out[io + j] = l;
        head = next_head(fine, head, j, l);
    }
    head
}

// Whether row i is finite up to its diagonal, and the rows before it were.
fn rows_fine(x: &[f64], s: usize, i: usize, before: bool) -> bool
    requires { (i < s) × (s * s ≤ length x.now) }
    ensures { result ≡ (before && all_to (i + 1) (λ k. finite (at s x.now i k))) }
{
    let o = base::offset(i, s, s);
    before && base::all_finite(&x[o..], i + 1)
}

// LDL' of a: L below the diagonal of out and d on it, up to the first pivot that is zero or not finite.
pub fn ldl(a: &[f64], s: usize, out: &mut [f64]) -> Result<(), usize>
    requires { (s * s ≤ length a.now) × (s * s ≤ length out.old) }
    ensures { LdlLeaves s a.now out.old result out.new }
{
    let mut fine = true;
    for i in 0..s {
        let io = base::offset(i, s, s);
        let head = ldl_row(a, s, i, fine, out);
        let sum = ldl_sum(out, s, i, i, head);
        let pivot = a[io + i] - sum;
        if !usable_pivot(pivot) {
            return Err(i);
        }
        out[io + i] = pivot;
        fine = rows_fine(out, s, i, fine);
    }
    Ok(())
}

// The sum of x_ik * x_jk over the first n columns.
pub fn rows_dot(x: &[f64], s: usize, i: usize, j: usize, n: usize) -> f64
    requires { (i < s) × (j < s) × (n ≤ s) × (s * s ≤ length x.now) }
    ensures { result ≡ rows_dot s (λ k. x.now ! k) i j n }
{
    let io = base::offset(i, s, s);
    let jo = base::offset(j, s, s);
    base::dot_from(x, io, &x[jo..], n)
}

// Row i of the Cholesky factor, up to its diagonal: the rows before it are done.
fn cholesky_row(a: &mut [f64], s: usize, i: usize)
    requires { (i < s) × (s * s ≤ length a.old) }
    ensures { a.new ≡ row_by (cholesky_rule s) (i * s) i a.old }
{
    let io = base::offset(i, s, s);
    for j in 0..i {
        let jo = base::offset(j, s, s);
        let sum = rows_dot(a, s, i, j, j);
        a[io + j] = (a[io + j] - sum) / a[jo + j];
    }
}

// Cholesky of a, over its lower triangle, up to the first pivot that is not above zero or not finite.
pub fn cholesky(a: &mut [f64], s: usize) -> Result<(), usize>
    requires { s * s ≤ length a.old }
    ensures { CholeskyLeaves s a.old result a.new }
{
    for i in 0..s {
        let io = base::offset(i, s, s);
        cholesky_row(a, s, i);
        let sum = rows_dot(a, s, i, i, i);
        let pivot = a[io + i] - sum;
        if !positive_pivot(pivot) {
            return Err(i);
        }
        a[io + i] = root::sqrt(pivot);
    }
    Ok(())
}
