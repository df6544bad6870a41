// A group with several effects.
ghost use Rattle.std.specs.Prelude.{◌+◌, ◌*◌, ◌^◌, ◌≤◌};
ghost use Rattle.base.specs.Rows.{row};
ghost use Rattle.layout.specs.WorkMatrices.{inverse_place};
ghost use Rattle.quadrature.specs.Orders.{size_of};
ghost use Rattle.agq_rule.specs.Point.{LogRow};
ghost use Rattle.sums.specs.Stands.{RoomyFor};
ghost use Rattle.sums.specs.Summed.{SumLeft, GroupLeft};
ghost use Rattle.groups.specs.Rules.{several_terms, several_rule};
ghost use Rattle.rule.specs.Lent.{given_at};

use layout::{inverse_at, mark_row, trial_u_at, u_at, xbeta_row};
use points::mark_group;
use quadrature::{Order, gh_rule};
use rule::Given;
use scale::{block_scale, copy_row};
use several::group_terms;
use sums::{GroupSum, inverse_phi, log_sum, power};

// The log sum of the group whose k effects begin at s, L standing at the place of the inverse: the marks of its observations and û go where the points look for them.
fn several_sums(
    given: &Given<'_>,
    order: Order,
    node_logs: &[f64],
    s: usize,
    k: usize,
    phi: f64,
    r: &mut [f64],
    m: &mut [f64],
    t: &mut [f64],
) -> GroupSum
    requires roomy { RoomyFor given.now r.old m.old t.old }
    requires k_bound { (s + k ≤ given.now.design.q) × (size_of order ^ k ≤ 400) × (LogRow order node_logs.now) }
    ensures { SumLeft
        (given_at given.now) (several_terms phi order s k (row (inverse_place given.now.design.q) (k * k) m.old)) given.now.design.n given.now.design.p given.now.design.q
        (size_of order ^ k) r.old r.new m.old m.new t.old t.new result }
{
    let design = &given.design;
    let mark = mark_row(design.n);
    mark_group(&design.zt, design.q, design.n, s, k, mark, r);
    let u = u_at(design.p, design.q);
    let trial = trial_u_at(design.p, design.q);
    copy_row(u, trial, design.q, m);
    let l = inverse_at(design.q);
    let xbeta = xbeta_row(design.n);
    let inv = inverse_phi(phi);
    let rule = gh_rule(order);
    let size = rule.size;
    let nodes = rule.nodes;
    let count = power(size, k);
    group_terms(
        given, xbeta, r, &nodes, node_logs, size, s, k, count, inv, l, u, trial, m, t,
    );
    log_sum(t, count)
}

// The log sum of the group whose k effects begin at s, or why its block of A has no scale.
pub fn several_group(
    given: &Given<'_>,
    order: Order,
    node_logs: &[f64],
    s: usize,
    k: usize,
    phi: f64,
    r: &mut [f64],
    m: &mut [f64],
    t: &mut [f64],
) -> GroupSum
    requires roomy { RoomyFor given.now r.old m.old t.old }
    requires k_bound { (s + k ≤ given.now.design.q) × (size_of order ^ k ≤ 400) × (LogRow order node_logs.now) }
    ensures { GroupLeft
        (given_at given.now) (several_rule phi order s k) given.now.design.n given.now.design.p given.now.design.q (size_of order ^ k) r.old r.new
        m.old m.new t.old t.new result }
{
    let design = &given.design;
    match block_scale(design.q, s, k, m, t) {
        Err(d) => GroupSum {
            sum: Err(d),
            points: 0,
        },
        Ok(()) => several_sums(given, order, node_logs, s, k, phi, r, m, t),
    }
}
