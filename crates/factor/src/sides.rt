// Substitution with LDL' on several right sides of s numbers each, one behind the other: row by row over all of them, so that no sum waits for another,
// and the zeros at the head of a row or column of L are looked for once. Such a zero times a finite entry is a zero, which a sum's head may leave out.
ghost use Rattle.std.specs.Prelude.{◌≡◌, ◌&&◌, ℕ, ◌+◌, ◌*◌, ◌≤◌, ◌<◌, length};
ghost use Rattle.base.specs.Sum.{◌!◌};
ghost use Rattle.base.specs.List.{at, grid_to};
ghost use Rattle.factor.specs.Substitution.{across_term, down_term, unit_forward_rule, unit_backward_rule, unit_forward, over_d, unit_backward};
ghost use Rattle.factor.specs.Heads.{Zeros, Head};
ghost use Rattle.factor.specs.Sides.{each_column, ldl_columns_at, Entered, RowEntered};

use crate::each::{change_columns, enter_columns};
use crate::substitution::{over_d, sum_behind, sum_further};

// Where the sums of row i begin: behind the zeros at the head of row i of L where that is allowed.
fn row_head(l: &[f64], s: usize, i: usize, allowed: bool) -> usize
    requires { (i < s) × (s * s ≤ length l.now) }
    ensures { Head allowed 0 i (λ k. at s l.now i k) result }
{
    let o = base::offset(i, s, s);
    if !allowed {
        return 0;
    }
    for k in 0..i {
        if l[o + k] != 0.0 {
            return k;
        }
    }
    i
}

// Where the sums of column i begin: behind the zeros below the diagonal of column i of L where that is allowed.
fn column_head(l: &[f64], s: usize, i: usize, allowed: bool) -> usize
    requires { (i < s) × (s * s ≤ length l.now) }
    ensures { Head allowed (i + 1) s (λ k. at s l.now k i) result }
{
    if !allowed {
        return i + 1;
    }
    for k in i + 1..s {
        let o = base::offset(k, s, s);
        if l[o + i] != 0.0 {
            return k;
        }
    }
    s
}

// Entry i of one right side forwards, its sum begun at head, and whether it is finite.
fn forward_entry(l: &[f64], s: usize, i: usize, head: usize, x: &mut [f64]) -> bool
    requires { (i < s) × (s * s ≤ length l.now) × (s ≤ length x.old) × (head ≤ i) × Zeros 0 head (across_term s l.now i (λ k. x.old ! k)) }
    ensures { Entered (unit_forward_rule s l.now) i x.old result x.new }
{
    let o = base::offset(i, s, s);
    let sum = sum_behind(l, o, x, head, i);
    x[i] = x[i] - sum;
    base::is_finite(x[i])
}

// L x = b for every right side, where L has 1 on its diagonal.
fn forward_columns(l: &[f64], s: usize, count: usize, x: &mut [f64])
    requires { (s * s ≤ length l.now) × (count * s ≤ length x.old) }
    ensures { x.new ≡ each_column (unit_forward s l.now) s count x.old }
{
    let mut fine = true;
    for i in 0..s {
        let head = row_head(l, s, i, fine);
        fine &= enter_columns(
            s,
            count,
            x,
            move |column| forward_entry(l, s, i, head, column),
        );
    }
}

// Entry i of one right side backwards, its sum begun at head, and whether it is finite.
fn backward_entry(l: &[f64], s: usize, i: usize, head: usize, x: &mut [f64]) -> bool
    requires { (i < s) × (s * s ≤ length l.now) × (s ≤ length x.old) × (i < head) × (head ≤ s) × Zeros (i + 1) head (down_term s l.now i (λ k. x.old ! k)) }
    ensures { Entered (unit_backward_rule s l.now) i x.old result x.new }
{
    let sum = sum_further(l, s, i, x, head);
    x[i] = x[i] - sum;
    base::is_finite(x[i])
}

// L' x = b for every right side, where L has 1 on its diagonal.
fn backward_columns(l: &[f64], s: usize, count: usize, x: &mut [f64])
    requires { (s * s ≤ length l.now) × (count * s ≤ length x.old) }
    ensures { x.new ≡ each_column (unit_backward s l.now) s count x.old }
{
    let mut fine = true;
    for i in (0..s).rev() {
        let head = column_head(l, s, i, fine);
        fine &= enter_columns(
            s,
            count,
            x,
            move |column| backward_entry(l, s, i, head, column),
        );
    }
}

// The solutions with LDL' of `count` right sides of s numbers each, one behind the other.
pub fn ldl_solve_columns(l: &[f64], s: usize, count: usize, x: &mut [f64])
    requires { (s * s ≤ length l.now) × (count * s ≤ length x.old) }
    ensures { x.new ≡ grid_to count s (ldl_columns_at s l.now x.old) x.old }
{
    forward_columns(l, s, count, x);
    change_columns(s, count, x, |_, column| over_d(l, s, column));
    backward_columns(l, s, count, x);
}
