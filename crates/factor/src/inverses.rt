// Inverses, each column solved by itself, and what v is summed from.
ghost use Rattle.std.specs.Prelude.{◌≡◌, ◌+◌, ◌*◌, ◌≤◌, ◌<◌, length};
ghost use Rattle.base.specs.List.{grid_to};
ghost use Rattle.factor.specs.Transpose.{turned_at, row_turned};
ghost use Rattle.factor.specs.Inverse.{unit_column, ldl_column, ldl_column_at, ldl_inverse_at, cholesky_column, cholesky_column_at, v_at};

use crate::each::change_columns;
use crate::factors::rows_dot;
use crate::substitution::{forward, ldl_solve};

// Column c of the unit matrix of size s.
fn unit_column(s: usize, c: usize, x: &mut [f64])
    requires { (c < s) × (length x.old ≡ s) }
    ensures { x.new ≡ unit_column s c }
{
    base::wipe(x, s);
    x[c] = 1.0;
}

// Column c of the inverse through LDL'.
fn ldl_column(l: &[f64], s: usize, c: usize, x: &mut [f64])
    requires { (c < s) × (s * s ≤ length l.now) × (length x.old ≡ s) }
    ensures { x.new ≡ ldl_column s l.now c }
{
    unit_column(s, c, x);
    ldl_solve(l, s, x);
}

// The first i entries of row i change places with those of column i.
fn turn_row(x: &mut [f64], s: usize, i: usize)
    requires { (i < s) × (s * s ≤ length x.old) }
    ensures { x.new ≡ row_turned s i i x.old }
{
    let io = base::offset(i, s, s);
    for j in 0..i {
        let jo = base::offset(j, s, s);
        let below = x[io + j];
        x[io + j] = x[jo + i];
        x[jo + i] = below;
    }
}

// The square's rows become its columns.
fn transpose(x: &mut [f64], s: usize)
    requires { s * s ≤ length x.old }
    ensures { x.new ≡ grid_to s s (turned_at s x.old) x.old }
{
    for i in 0..s {
        turn_row(x, s, i);
    }
}

// The inverse through the factor l of LDL', row by row.
pub fn ldl_inverse(l: &[f64], s: usize, out: &mut [f64])
    requires { (s * s ≤ length l.now) × (s * s ≤ length out.old) }
    ensures { out.new ≡ grid_to s s (ldl_inverse_at s l.now) out.old }
{
    change_columns(s, s, out, |c, column| ldl_column(l, s, c, column));
    transpose(out, s);
}

// Column c of the inverse of a Cholesky factor.
fn cholesky_column(l: &[f64], s: usize, c: usize, x: &mut [f64])
    requires { (c < s) × (s * s ≤ length l.now) × (length x.old ≡ s) }
    ensures { x.new ≡ cholesky_column s l.now c }
{
    unit_column(s, c, x);
    forward(l, s, x);
}

// The inverse of the Cholesky factor l, its columns one behind the other.
pub fn cholesky_inverse(l: &[f64], s: usize, out: &mut [f64])
    requires { (s * s ≤ length l.now) × (s * s ≤ length out.old) }
    ensures { out.new ≡ grid_to s s (cholesky_column_at s l.now) out.old }
{
    change_columns(s, s, out, |c, column| cholesky_column(l, s, c, column));
}

// Entry (a, b) of v, from the columns of the inverse of the Cholesky factor.
pub fn v_at(columns: &[f64], p: usize, a: usize, b: usize) -> f64
    requires { (a < p) × (b < p) × (p * p ≤ length columns.now) }
    ensures { result ≡ v_at p columns.now a b }
{
    rows_dot(columns, p, a, b, p)
}
