// The product rule.
ghost use Rattle.std.specs.Prelude.{◌≡◌, ◌+◌, ◌*◌, ◌^◌, ◌≤◌};
ghost use Rattle.quadrature.specs.Orders.{size_of};
ghost use Rattle.agq_rule.specs.Point.{LogRow};
ghost use Rattle.sums.specs.Stands.{RoomyFor};
ghost use Rattle.sums.specs.Summed.{GroupLeft, StepLeft};
ghost use Rattle.groups.specs.Rules.{Grouped, group_rule, product_rule};
ghost use Rattle.rule.specs.Lent.{given_at};

use crate::group::several_group;
use points::log_weights;
use quadrature::{Order, gh_rule};
use rule::Given;
use sums::{GroupSum, Quadrature, one_group};

// The log sum of group g of k effects.
fn group(
    given: &Given<'_>,
    order: Order,
    node_logs: &[f64],
    k: usize,
    g: usize,
    phi: f64,
    r: &mut [f64],
    m: &mut [f64],
    t: &mut [f64],
) -> GroupSum
    requires roomy { RoomyFor given.now r.old m.old t.old }
    requires k_bound { (g * k + k ≤ given.now.design.q) × ((k ≡ 1 → ⊥) → size_of order ^ k ≤ 400) × (LogRow order node_logs.now) }
    ensures { GroupLeft
        (given_at given.now) (group_rule phi order k g) given.now.design.n given.now.design.p given.now.design.q (size_of order ^ k) r.old r.new
        m.old m.new t.old t.new result }
{
    if k == 1 {
        return one_group(given, order, node_logs, g, phi, r, m, t);
    }
    let s = g * k;
    several_group(given, order, node_logs, s, k, phi, r, m, t)
}

// All groups of k effects: the fit term plus the total of -2·log sum of each, or why there is none. The logarithms of the rule's weights are taken once.
pub fn product_step(
    given: &Given<'_>,
    order: Order,
    groups: usize,
    k: usize,
    phi: f64,
    fit: f64,
    r: &mut [f64],
    m: &mut [f64],
    t: &mut [f64],
) -> Quadrature
    requires roomy { RoomyFor given.now r.old m.old t.old }
    requires grouped { Grouped given.now.design.q groups k order }
    ensures { StepLeft
        (given_at given.now) (product_rule phi order k groups) given.now.design.n given.now.design.p given.now.design.q fit r.old r.new m.old
        m.new t.old t.new result }
{
    let rule = gh_rule(order);
    let size = rule.size;
    let node_weights = rule.weights;
    let mut node_logs = [0.0; 11];
    log_weights(&node_weights, size, &mut node_logs);
    let mut total = 0.0;
    let mut points = 0;
    for g in 0..groups {
        let a = group(given, order, &node_logs, k, g, phi, r, m, t);
        points += a.points;
        let sum = a.sum;
        match sum {
            Err(d) => {
                return Quadrature {
                    answer: Err(d),
                    points,
                };
            }
            Ok(s) => {
                total = total + -2.0 * s;
            }
        }
    }
    Quadrature {
        answer: Ok((fit + total, order)),
        points,
    }
}
