// The joint rule: one sum over all effects.
ghost use Rattle.std.specs.Prelude.{◌≡◌, ◌*◌, ◌^◌, ◌≤◌};
ghost use Rattle.base.specs.Rows.{row};
ghost use Rattle.layout.specs.WorkMatrices.{inverse_place};
ghost use Rattle.quadrature.specs.Orders.{size_of};
ghost use Rattle.sums.specs.Stands.{RoomyFor};
ghost use Rattle.sums.specs.Summed.{SumLeft, StepLeft};
ghost use Rattle.joint.specs.Joint.{joint_terms, joint_rule, joint_answer};
ghost use Rattle.rule.specs.Lent.{given_at};

use layout::{inverse_at, mark_row, trial_u_at, u_at, xbeta_row};
use points::{log_weights, mark_all};
use quadrature::{Order, gh_rule};
use rule::Given;
use scale::block_scale;
use several::joint_terms;
use sums::{GroupSum, Quadrature, inverse_phi, log_sum, power};

// The log sum over all effects, L standing at the place of the inverse: every observation enters.
fn joint_sums(
    given: &Given<'_>,
    order: Order,
    phi: f64,
    r: &mut [f64],
    m: &mut [f64],
    t: &mut [f64],
) -> GroupSum
    requires roomy { RoomyFor given.now r.old m.old t.old }
    requires q_bound { size_of order ^ given.now.design.q ≤ 7000 }
    ensures { SumLeft
        (given_at given.now) (joint_terms phi order (row (inverse_place given.now.design.q) (given.now.design.q * given.now.design.q) m.old)) given.now.design.n given.now.design.p given.now.design.q (size_of order ^ given.now.design.q)
        r.old r.new m.old m.new t.old t.new result }
{
    let design = &given.design;
    let mark = mark_row(design.n);
    mark_all(design.n, mark, r);
    let u = u_at(design.p, design.q);
    let trial = trial_u_at(design.p, design.q);
    let l = inverse_at(design.q);
    let xbeta = xbeta_row(design.n);
    let inv = inverse_phi(phi);
    let rule = gh_rule(order);
    let size = rule.size;
    let nodes = rule.nodes;
    let node_weights = rule.weights;
    let mut node_logs = [0.0; 11];
    log_weights(&node_weights, size, &mut node_logs);
    let count = power(size, design.q);
    joint_terms(
        given, xbeta, r, &nodes, &node_logs, size, count, inv, l, u, trial, m, t,
    );
    log_sum(t, count)
}

// The fit term with -2·log sum added, or that there is none.
fn joint_answer(a: GroupSum, order: Order, fit: f64) -> Quadrature
    ensures { result ≡ joint_answer a order fit }
{
    let sum = a.sum;
    match sum {
        Err(d) => Quadrature {
            answer: Err(d),
            points: a.points,
        },
        Ok(s) => Quadrature {
            answer: Ok((fit + -2.0 * s, order)),
            points: a.points,
        },
    }
}

// All effects at once: the fit term with -2·log sum added, or why there is none.
pub fn joint_step(
    given: &Given<'_>,
    order: Order,
    phi: f64,
    fit: f64,
    r: &mut [f64],
    m: &mut [f64],
    t: &mut [f64],
) -> Quadrature
    requires roomy { RoomyFor given.now r.old m.old t.old }
    requires q_bound { size_of order ^ given.now.design.q ≤ 7000 }
    ensures { StepLeft
        (given_at given.now) (joint_rule phi order) given.now.design.n given.now.design.p given.now.design.q fit r.old r.new m.old m.new
        t.old t.new result }
{
    let design = &given.design;
    match block_scale(design.q, 0, design.q, m, t) {
        Err(d) => Quadrature {
            answer: Err(d),
            points: 0,
        },
        Ok(()) => {
            let a = joint_sums(given, order, phi, r, m, t);
            joint_answer(a, order, fit)
        }
    }
}
