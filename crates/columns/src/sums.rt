// The sums over the observations: each reads X and the weights at w of t once for all columns, and writes a piece of m.
ghost use Rattle.std.specs.Prelude.{◌+◌, ◌*◌, ◌≤◌, length};
ghost use Rattle.base.specs.List.{build, matrix};
ghost use Rattle.base.specs.Rows.{row, Wrote};
ghost use Rattle.linear.specs.Product.{cross_at};
ghost use Rattle.columns.specs.Weighted.{weighted_dot, weighted_side};
ghost use Rattle.columns.specs.Pieces.{LowerWrote};
ghost use Rattle.stored.specs.Lent.{sparse_in, RowsIn};

use crate::weighted::{weighted_dots, weighted_rows};
use stored::Sparse;

// X'WX up to its diagonal, into the p² places from crossed on.
pub fn cross_into(x: &[f64], n: usize, p: usize, w: usize, t: &[f64], crossed: usize, m: &mut [f64])
    requires { (n * p ≤ length x.now) × (w + n ≤ length t.now) × (crossed + p * p ≤ length m.old) }
    ensures { LowerWrote crossed p (cross_at x.now p n (row w n t.now)) m.old m.new }
{
    let we = w + n;
    let e = crossed + p * p;
    linear::cross_rows(x, &t[w..we], n, p, &mut m[crossed..e]);
}

// (x_a·w)·(z - offset) for each column, z - offset being at working of r, into the p places from beta on.
pub fn dots_into(
    x: &[f64],
    n: usize,
    p: usize,
    w: usize,
    t: &[f64],
    working: usize,
    r: &[f64],
    beta: usize,
    m: &mut [f64],
)
    requires { (n * p ≤ length x.now) × (w + n ≤ length t.now) × (working + n ≤ length r.now) × (beta + p ≤ length m.old) }
    ensures { Wrote beta p (build (weighted_dot x.now p n (row w n t.now) (row working n r.now)) p) m.old m.new }
{
    let we = w + n;
    let ke = working + n;
    let e = beta + p;
    weighted_dots(x, &t[w..we], &r[working..ke], n, p, &mut m[beta..e]);
}

// Z'(x_a·w) for each column, by the rows of Z', into the q rows of p places from solved on.
pub fn rows_into(
    zt: &Sparse<'_>,
    x: &[f64],
    n: usize,
    p: usize,
    q: usize,
    w: usize,
    t: &[f64],
    solved: usize,
    m: &mut [f64],
)
    requires rows { RowsIn zt.now q n }
    requires p_in_bounds { (n * p ≤ length x.now) × (w + n ≤ length t.now) × (solved + q * p ≤ length m.old) }
    ensures { Wrote solved (q * p)
        (matrix q p (weighted_side (sparse_in zt.now) x.now p n (row w n t.now)))
        m.old m.new }
{
    let we = w + n;
    let e = solved + q * p;
    weighted_rows(zt, x, &t[w..we], n, p, q, &mut m[solved..e]);
}
