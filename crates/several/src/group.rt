// A group of several effects: the log term of a point, and those of all its points.
ghost use Rattle.std.specs.Prelude.{◌*◌, ◌≤◌, length};
ghost use Rattle.base.specs.Rows.{row};
ghost use Rattle.agq.specs.Gained.{RoomFor, gain_for};
ghost use Rattle.several.specs.Several.{Grid, group_effects, group_term_in, PointIn, TermsIn};

use crate::trial::trial_gain;
use points::{delta, group_penalty, log_weight};
use rule::Given;

// The log term of a point of the group whose k effects begin at s: log weight + delta, the penalty being the sum of t² - û² over the k.
pub fn group_point(
    given: &Given<'_>,
    xbeta: usize,
    r: &mut [f64],
    nodes: &[f64],
    node_logs: &[f64],
    size: usize,
    point: usize,
    s: usize,
    k: usize,
    inv_phi: f64,
    l: usize,
    u: usize,
    trial: usize,
    m: &mut [f64],
) -> f64
    requires room { RoomFor given.now xbeta r.old trial m.old }
    requires grid { Grid given.now.design.q s k size l u trial nodes.now m.old }
    requires size_in_bounds { size ≤ length node_logs.now }
    ensures { PointIn
        (group_term_in
        (gain_for given.now xbeta r.old) s k inv_phi nodes.now node_logs.now size
        (row l (k * k) m.old) (row u given.now.design.q m.old) (row trial given.now.design.q m.old) point)
        (group_effects s k nodes.now size (row l (k * k) m.old) (row u given.now.design.q m.old) (row trial given.now.design.q m.old) point) given.now.design.n given.now.design.q xbeta
        trial r.old r.new m.old m.new result }
{
    let dd = trial_gain(given, xbeta, r, nodes, size, point, s, k, l, u, trial, m);
    let at = trial + s;
    let end = at + k;
    let hat = u + s;
    let hat_end = hat + k;
    let pen = group_penalty(&m[at..end], &m[hat..hat_end], k);
    let weight = log_weight(node_logs, size, k, point);
    weight + delta(inv_phi, dd, pen)
}

// The log terms of the points 0 to count - 1 of that group into the first places of terms.
pub fn group_terms(
    given: &Given<'_>,
    xbeta: usize,
    r: &mut [f64],
    nodes: &[f64],
    node_logs: &[f64],
    size: usize,
    s: usize,
    k: usize,
    count: usize,
    inv_phi: f64,
    l: usize,
    u: usize,
    trial: usize,
    m: &mut [f64],
    terms: &mut [f64],
)
    requires room { RoomFor given.now xbeta r.old trial m.old }
    requires grid { Grid given.now.design.q s k size l u trial nodes.now m.old }
    requires size_in_bounds { (size ≤ length node_logs.now) × (count ≤ length terms.old) }
    ensures { TermsIn
        (group_term_in
        (gain_for given.now xbeta r.old) s k inv_phi nodes.now node_logs.now size
        (row l (k * k) m.old) (row u given.now.design.q m.old) (row trial given.now.design.q m.old)) given.now.design.n given.now.design.q xbeta trial count r.old r.new
        m.old m.new terms.old terms.new }
{
    for i in 0..count {
        let term = group_point(
            given, xbeta, r, nodes, node_logs, size, i, s, k, inv_phi, l, u, trial, m,
        );
        terms[i] = term;
    }
}
