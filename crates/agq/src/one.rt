// One effect a group: the log term of a point, and those of a group.
ghost use Rattle.std.specs.Prelude.{◌+◌, ◌≤◌, ◌<◌, length};
ghost use Rattle.base.specs.Rows.{row};
ghost use Rattle.agq.specs.Gained.{RoomFor};
ghost use Rattle.agq.specs.One.{OnesIn, OneFor, one_term_for};

use crate::gain::point_gain;
use points::delta;
use rule::Given;

// The log term at a node of group g: its effect moves by sigma·node from û, which stands in the q places of m at u, to its place among the
// q effects at trial; the others there stay.
fn one_point(
    given: &Given<'_>,
    xbeta: usize,
    r: &mut [f64],
    g: usize,
    sigma: f64,
    node: f64,
    log_weight: f64,
    inv_phi: f64,
    u: usize,
    trial: usize,
    m: &mut [f64],
) -> f64
    requires room { RoomFor given.now xbeta r.old trial m.old }
    requires g_lt_q { (g < given.now.design.q) × (u + given.now.design.q ≤ trial) }
    ensures { OneFor given.now xbeta g sigma node log_weight inv_phi u trial r.old r.new m.old
        m.new result }
{
    let hat = m[u + g];
    let t = hat + sigma * node;
    m[trial + g] = t;
    let dd = point_gain(given, xbeta, r, trial, m);
    let pen = t * t - hat * hat;
    log_weight + delta(inv_phi, dd, pen)
}

// The log terms of group g into the first places of terms, one for each node.
pub fn one_terms(
    given: &Given<'_>,
    xbeta: usize,
    r: &mut [f64],
    nodes: &[f64],
    node_logs: &[f64],
    size: usize,
    g: usize,
    sigma: f64,
    inv_phi: f64,
    u: usize,
    trial: usize,
    m: &mut [f64],
    terms: &mut [f64],
)
    requires room { RoomFor given.now xbeta r.old trial m.old }
    requires g_lt_q { (g < given.now.design.q) × (u + given.now.design.q ≤ trial) × (size ≤ length nodes.now) × (size ≤ length node_logs.now) × (size ≤ length terms.old) }
    ensures { OnesIn
        (one_term_for given.now xbeta g sigma inv_phi (row u given.now.design.q m.old) r.old (row trial given.now.design.q m.old)
        nodes.now node_logs.now) given.now.design.n given.now.design.q xbeta trial size r.old r.new m.old m.new
        terms.old terms.new }
{
    for i in 0..size {
        let node = nodes[i];
        let weight = node_logs[i];
        let term = one_point(
            given, xbeta, r, g, sigma, node, weight, inv_phi, u, trial, m,
        );
        terms[i] = term;
    }
}
