// From β to the raw predictor, where the layout has them.
ghost use Rattle.std.specs.Prelude.{◌*◌, ◌≤◌, length};
ghost use Rattle.base.specs.Rows.{row};
ghost use Rattle.layout.specs.Layout.{WorkRoom};
ghost use Rattle.layout.specs.WorkMatrices.{solved_place, wy_place, beta_place};
ghost use Rattle.working.specs.Optional.{Optional};
ghost use Rattle.iteration.specs.Solving.{RawLeft};
ghost use Rattle.rule.specs.Lent.{design_in};
ghost use Rattle.iteration.specs.Iterated.{ReadyFor};

use layout::{b_at, beta_at, raw_row, solved_at, spare_at, u_at, wy_at};
use rule::Design;
use solve::{effects_into, solve_u, zb_into};

// u, b = Λu and the raw predictor.
pub fn raw_into(design: &Design<'_>, r: &mut [f64], m: &mut [f64], t: &mut [f64])
    requires ready { ReadyFor design.now }
    requires work_room { WorkRoom design.now.n design.now.p design.now.q r.old m.old t.old }
    requires optional { (Optional design.now.n design.now.offset.now) × (design.now.n * design.now.p ≤ length design.now.x.now) }
    ensures { RawLeft
        (design_in design.now) (row (wy_place design.now.p design.now.q) design.now.q m.old)
        (row (solved_place design.now.q) (design.now.p * design.now.q) m.old) (row (beta_place design.now.p design.now.q) design.now.p m.old) r.old r.new m.old
        m.new t.old t.new }
{
    let spare = spare_at(design.n, design.p, design.q);
    let beta = beta_at(design.p, design.q);
    let u = u_at(design.p, design.q);
    let b = b_at(design.p, design.q);
    let raw = raw_row(design.n);
    solve_u(
        design.q,
        design.p,
        wy_at(design.p, design.q),
        solved_at(design.q),
        beta,
        m,
        spare,
        t,
    );
    effects_into(design.shape, design.theta, design.q, spare, t, u, m);
    zb_into(&design.zt, design.q, design.n, b, m, raw, r);
    let be = beta + design.p;
    let re = raw + design.n;
    working::raw_row(
        design.offset,
        design.x,
        &m[beta..be],
        design.n,
        design.p,
        &mut r[raw..re],
    );
}
