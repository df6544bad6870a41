// The right sides of the system, solved, and the normal matrix with its own.
ghost use Rattle.std.specs.Prelude.{◌*◌, ◌≤◌, length};
ghost use Rattle.layout.specs.Layout.{WorkRoom};
ghost use Rattle.iteration.specs.Solving.{SidesOf};
ghost use Rattle.stored.specs.Lent.{sparse_in};
ghost use Rattle.iteration.specs.Iterated.{ReadyFor};

use columns::normal_columns;
use layout::{weighted_row, wy_at};
use rule::Design;
use solve::solve_side;

// wy from w·(z - offset), then the columns of X.
pub fn right_sides(design: &Design<'_>, r: &[f64], m: &mut [f64], t: &mut [f64])
    requires ready { ReadyFor design.now }
    requires work_room { WorkRoom design.now.n design.now.p design.now.q r.now m.old t.old }
    requires p_in_bounds { design.now.n * design.now.p ≤ length design.now.x.now }
    ensures { SidesOf design.now.n design.now.p design.now.q design.now.shape design.now.theta.now design.now.x.now (sparse_in design.now.zt) r.now
        m.old m.new t.old t.new }
{
    let weighted = weighted_row(design.n);
    let end = weighted + design.n;
    let square = design.q * design.q;
    let wy = wy_at(design.p, design.q);
    solve_side(
        design.shape,
        design.theta,
        &design.zt,
        design.q,
        design.n,
        &r[weighted..end],
        &t[0..square],
        wy,
        m,
    );
    normal_columns(
        design.shape,
        design.theta,
        &design.zt,
        design.x,
        design.n,
        design.p,
        design.q,
        r,
        m,
        t,
    );
}
