// All effects at once: the log term of a point, and those of all points.
ghost use Rattle.std.specs.Prelude.{◌*◌, ◌≤◌, length};
ghost use Rattle.base.specs.Rows.{row};
ghost use Rattle.agq.specs.Gained.{RoomFor, gain_for};
ghost use Rattle.several.specs.Several.{Grid, log_weight_in, joint_effects, joint_term_with, joint_term_in, PointIn, TermsIn};

use crate::trial::trial_gain;
use base::dot;
use points::{delta, log_weight};
use rule::Given;

// The log term of a point: log weight + delta, the penalty being Σt² less Σû², which is hats.
pub fn joint_point(
    given: &Given<'_>,
    xbeta: usize,
    r: &mut [f64],
    nodes: &[f64],
    node_logs: &[f64],
    size: usize,
    point: usize,
    inv_phi: f64,
    hats: f64,
    l: usize,
    u: usize,
    trial: usize,
    m: &mut [f64],
) -> f64
    requires room { RoomFor given.now xbeta r.old trial m.old }
    requires grid { Grid given.now.design.q 0 given.now.design.q size l u trial nodes.now m.old }
    requires size_in_bounds { size ≤ length node_logs.now }
    ensures { PointIn
        (joint_term_with
        (gain_for given.now xbeta r.old) given.now.design.q (log_weight_in node_logs.now size given.now.design.q point) inv_phi hats
        (joint_effects given.now.design.q nodes.now size (row l (given.now.design.q * given.now.design.q) m.old) (row u given.now.design.q m.old) point))
        (joint_effects given.now.design.q nodes.now size (row l (given.now.design.q * given.now.design.q) m.old) (row u given.now.design.q m.old) point) given.now.design.n given.now.design.q xbeta trial r.old
        r.new m.old m.new result }
{
    let design = &given.design;
    let dd = trial_gain(
        given, xbeta, r, nodes, size, point, 0, design.q, l, u, trial, m,
    );
    let end = trial + design.q;
    let squares = dot(&m[trial..end], &m[trial..end], design.q);
    let weight = log_weight(node_logs, size, design.q, point);
    weight + delta(inv_phi, dd, squares - hats)
}

// The log terms of the points 0 to count - 1 into the first places of terms. Σû² is the same at every point, so it is formed once.
pub fn joint_terms(
    given: &Given<'_>,
    xbeta: usize,
    r: &mut [f64],
    nodes: &[f64],
    node_logs: &[f64],
    size: usize,
    count: usize,
    inv_phi: f64,
    l: usize,
    u: usize,
    trial: usize,
    m: &mut [f64],
    terms: &mut [f64],
)
    requires room { RoomFor given.now xbeta r.old trial m.old }
    requires grid { Grid given.now.design.q 0 given.now.design.q size l u trial nodes.now m.old }
    requires size_in_bounds { (size ≤ length node_logs.now) × (count ≤ length terms.old) }
    ensures { TermsIn
        (joint_term_in
        (gain_for given.now xbeta r.old) given.now.design.q inv_phi nodes.now node_logs.now size
        (row l (given.now.design.q * given.now.design.q) m.old) (row u given.now.design.q m.old)) given.now.design.n given.now.design.q xbeta trial count r.old r.new m.old m.new
        terms.old terms.new }
{
    let design = &given.design;
    let end = u + design.q;
    let hats = dot(&m[u..end], &m[u..end], design.q);
    for i in 0..count {
        let term = joint_point(
            given, xbeta, r, nodes, node_logs, size, i, inv_phi, hats, l, u, trial, m,
        );
        terms[i] = term;
    }
}
