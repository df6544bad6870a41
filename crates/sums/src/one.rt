// A group with one effect.
ghost use Rattle.std.specs.Prelude.{◌<◌};
ghost use Rattle.quadrature.specs.Orders.{size_of};
ghost use Rattle.agq_rule.specs.Point.{LogRow};
ghost use Rattle.sums.specs.Stands.{RoomyFor};
ghost use Rattle.sums.specs.Summed.{SumLeft, GroupLeft};
ghost use Rattle.sums.specs.Rules.{one_terms, one_rule};
ghost use Rattle.rule.specs.Lent.{given_at};

use crate::answers::{GroupSum, inverse_phi, log_sum};
use agq::one_terms;
use layout::{mark_row, trial_u_at, u_at, xbeta_row};
use points::mark_group;
use quadrature::{Order, gh_rule};
use rule::Given;
use scale::{copy_row, one_sigma};

// The log sum of group g, whose points lie sigma·z from û: the marks of its observations and û go where the points look for them.
fn one_sums(
    given: &Given<'_>,
    order: Order,
    node_logs: &[f64],
    g: usize,
    sigma: f64,
    phi: f64,
    r: &mut [f64],
    m: &mut [f64],
    t: &mut [f64],
) -> GroupSum
    requires roomy { RoomyFor given.now r.old m.old t.old }
    requires g_lt_q { (g < given.now.design.q) × (LogRow order node_logs.now) }
    ensures { SumLeft
        (given_at given.now) (one_terms phi order g sigma) given.now.design.n given.now.design.p given.now.design.q (size_of order) r.old r.new m.old
        m.new t.old t.new result }
{
    let design = &given.design;
    let mark = mark_row(design.n);
    mark_group(&design.zt, design.q, design.n, g, 1, mark, r);
    let u = u_at(design.p, design.q);
    let trial = trial_u_at(design.p, design.q);
    copy_row(u, trial, design.q, m);
    let xbeta = xbeta_row(design.n);
    let inv = inverse_phi(phi);
    let rule = gh_rule(order);
    let size = rule.size;
    let nodes = rule.nodes;
    one_terms(
        given, xbeta, r, &nodes, node_logs, size, g, sigma, inv, u, trial, m, t,
    );
    log_sum(t, size)
}

// The log sum of group g, or that its diagonal entry of A cannot be used.
pub fn one_group(
    given: &Given<'_>,
    order: Order,
    node_logs: &[f64],
    g: usize,
    phi: f64,
    r: &mut [f64],
    m: &mut [f64],
    t: &mut [f64],
) -> GroupSum
    requires roomy { RoomyFor given.now r.old m.old t.old }
    requires g_lt_q { (g < given.now.design.q) × (LogRow order node_logs.now) }
    ensures { GroupLeft
        (given_at given.now) (one_rule phi order g) given.now.design.n given.now.design.p given.now.design.q (size_of order) r.old r.new m.old
        m.new t.old t.new result }
{
    let design = &given.design;
    match one_sigma(design.q, g, m) {
        Err(d) => GroupSum {
            sum: Err(d),
            points: 0,
        },
        Ok(sigma) => one_sums(given, order, node_logs, g, sigma, phi, r, m, t),
    }
}
