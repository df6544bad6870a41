// One solve over the work slices.
ghost use Rattle.std.specs.Prelude.{◌*◌, ◌≤◌, length};
ghost use Rattle.layout.specs.Layout.{WorkRoom};
ghost use Rattle.working.specs.Optional.{Optional};
ghost use Rattle.iteration.specs.Solving.{SolvesWorking};
ghost use Rattle.rule.specs.Lent.{design_in};
ghost use Rattle.iteration.specs.Iterated.{ReadyFor};

use crate::raws::raw_into;
use crate::roots::solve_root;
use crate::sides::right_sides;
use layout::w_at;
use model::End;
use rule::Design;
use solve::factor_system;

// From w and z to the raw predictor: A and its factor, the right sides, the normal matrix's factor and β, u and b.
pub fn solve_into(
    design: &Design<'_>,
    r: &mut [f64],
    m: &mut [f64],
    t: &mut [f64],
) -> Result<(), End>
    requires ready { ReadyFor design.now }
    requires work_room { WorkRoom design.now.n design.now.p design.now.q r.old m.old t.old }
    requires optional { (Optional design.now.n design.now.offset.now) × (design.now.n * design.now.p ≤ length design.now.x.now) }
    ensures { SolvesWorking
        (design_in design.now) r.old r.new m.old m.new
        t.old t.new result }
{
    factor_system(
        design.shape,
        design.theta,
        &design.zt,
        design.n,
        design.q,
        w_at(design.q),
        t,
        m,
    )
    .map_err(|_| End::SystemPivot)?;
    right_sides(design, r, m, t);
    solve_root(design.n, design.p, design.q, m, t).map_err(|_| End::NormalPivot)?;
    raw_into(design, r, m, t);
    Ok(())
}
