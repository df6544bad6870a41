// A point of the grid: its number's digits, in a base of as many nodes as the rule has, say which node each dimension takes.
ghost use Rattle.std.specs.Prelude.{◌≡◌, ◌+◌, ◌≤◌, length};
ghost use Rattle.base.specs.Sum.{sum_to};
ghost use Rattle.base.specs.List.{build, fill_to};
ghost use Rattle.base.specs.Rows.{Wrote};
ghost use Rattle.agq_rule.specs.Point.{digit_entry};
ghost use Rattle.points.specs.Grid.{log_at};

use elementary::ln;

// z of a point in k dimensions into the row at z, the first dimension by the lowest digit.
pub fn point_nodes(nodes: &[f64], size: usize, k: usize, point: usize, z: usize, m: &mut [f64])
    requires { (1 ≤ size) × (size ≤ length nodes.now) × (z + k ≤ length m.old) }
    ensures { Wrote z k (build (digit_entry nodes.now size point) k) m.old m.new }
{
    let mut rest = point;
    for j in 0..k {
        let d = rest % size;
        m[z + j] = nodes[d];
        rest = rest / size;
    }
}

// The logarithms of the first size weights into the front of logs: one logarithm a node, however many points there are.
pub fn log_weights(weights: &[f64], size: usize, logs: &mut [f64])
    requires { (size ≤ length weights.now) × (size ≤ length logs.old) }
    ensures { logs.new ≡ fill_to size (log_at weights.now) logs.old }
{
    for i in 0..size {
        logs[i] = ln(weights[i]);
    }
}

// The log weight of a point: the sum of its dimensions' logarithms, which stand in logs.
pub fn log_weight(logs: &[f64], size: usize, k: usize, point: usize) -> f64
    requires { (1 ≤ size) × (size ≤ length logs.now) }
    ensures { result ≡ sum_to k (digit_entry logs.now size point) }
{
    let mut rest = point;
    let mut sum = 0.0;
    for j in 0..k {
        let d = rest % size;
        sum = sum + logs[d];
        rest = rest / size;
    }
    sum
}
