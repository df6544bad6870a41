// The normal matrix and its right side, from all columns of X.
ghost use Rattle.std.specs.Prelude.{◌*◌, ◌≤◌, length};
ghost use Rattle.layout.specs.Layout.{WorkRoom};
ghost use Rattle.solve.specs.Ready.{ReadyIn};
ghost use Rattle.columns.specs.Columns.{ColumnsOf};
ghost use Rattle.stored.specs.Lent.{sparse_in};

use crate::remainders::{normal_into, sides_into};
use crate::solutions::{solved_into, unsolved_into};
use crate::sums::{cross_into, dots_into, rows_into};
use model::Shape;
use stored::Sparse;

// W and the right side of the normal matrix into m, N up to its diagonal into t. Until the end X'WX stands in the place of P, which is made only at the stop;
// Z'(x_a·w) for each a in that of W, and (x_a·w)·(z - offset) in that of the right side.
pub fn normal_columns(
    shape: Shape,
    theta: &[f64],
    zt: &Sparse<'_>,
    x: &[f64],
    n: usize,
    p: usize,
    q: usize,
    r: &[f64],
    m: &mut [f64],
    t: &mut [f64],
)
    requires ready { ReadyIn shape theta.now zt.now q n }
    requires work_room { WorkRoom n p q r.now m.old t.old }
    requires p_in_bounds { n * p ≤ length x.now }
    ensures { ColumnsOf n p q shape theta.now x.now (sparse_in zt.now) r.now
        m.old m.new t.old t.new }
{
    let working = layout::working_row(n);
    let w = layout::w_at(q);
    let unsolved = layout::unsolved_at(n, q);
    let normal = layout::normal_at(n, p, q);
    let solved = layout::solved_at(q);
    let crossed = layout::root_inverse_at(p, q);
    let wy = layout::wy_at(p, q);
    let beta = layout::beta_at(p, q);
    cross_into(x, n, p, w, t, crossed, m);
    dots_into(x, n, p, w, t, working, r, beta, m);
    rows_into(zt, x, n, p, q, w, t, solved, m);
    unsolved_into(shape, theta, q, p, solved, m, unsolved, t);
    solved_into(q, p, unsolved, t, solved, m);
    normal_into(p, q, crossed, solved, m, unsolved, normal, t);
    sides_into(p, q, unsolved, t, wy, beta, m);
}
