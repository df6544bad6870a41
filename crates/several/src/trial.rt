// The effects at a point of the grid, and dd of them.
ghost use Rattle.std.specs.Prelude.{◌*◌};
ghost use Rattle.base.specs.Rows.{row};
ghost use Rattle.agq.specs.Gained.{RoomFor, gain_for};
ghost use Rattle.several.specs.Several.{Grid, group_effects, TrialIn};

use agq::point_gain;
use points::{move_effects, point_nodes};
use rule::Given;

// dd at a point: its nodes z go behind the trial effects and Λ times them, and the k effects from s on move by L z from û, which stands in
// the q places of m at u, to their places among the q effects at trial; the others there stay.
pub fn trial_gain(
    given: &Given<'_>,
    xbeta: usize,
    r: &mut [f64],
    nodes: &[f64],
    size: usize,
    point: usize,
    s: usize,
    k: usize,
    l: usize,
    u: usize,
    trial: usize,
    m: &mut [f64],
) -> f64
    requires room { RoomFor given.now xbeta r.old trial m.old }
    requires grid { Grid given.now.design.q s k size l u trial nodes.now m.old }
    ensures { TrialIn
        (gain_for given.now xbeta r.old)
        (group_effects s k nodes.now size (row l (k * k) m.old) (row u given.now.design.q m.old) (row trial given.now.design.q m.old) point) given.now.design.n given.now.design.q xbeta
        trial r.old r.new m.old m.new result }
{
    let design = &given.design;
    let z = trial + design.q + design.q;
    let hat = u + s;
    let at = trial + s;
    point_nodes(nodes, size, k, point, z, m);
    move_effects(k, l, z, hat, at, m);
    point_gain(given, xbeta, r, trial, m)
}
