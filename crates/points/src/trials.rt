// The effects at a point, all in one work slice m.
ghost use Rattle.std.specs.Prelude.{◌≡◌, true, ◌+◌, ◌*◌, ◌≤◌, length};
ghost use Rattle.base.specs.Sum.{sum_to, all_to, finite_at};
ghost use Rattle.base.specs.List.{build};
ghost use Rattle.base.specs.Rows.{row, Apart, Wrote};
ghost use Rattle.model.specs.Shape.{effects_of, theta_length, good_shape};
ghost use Rattle.lambda.specs.Product.{lambda_times_at};
ghost use Rattle.agq_rule.specs.Term.{penalty_at, moved_at};

use lambda::{add_column, column_of};
use model::Shape;
use spread::spread_at;

// û + L z of k effects into the k places at trial: û stands at u, L at l and z at z.
pub fn move_effects(k: usize, l: usize, z: usize, u: usize, trial: usize, m: &mut [f64])
    requires k_in_bounds { (l + k * k ≤ length m.old) × (z + k ≤ length m.old) × (u + k ≤ length m.old) × (trial + k ≤ length m.old) }
    requires apart { (Apart l (k * k) trial k) × (Apart z k trial k) × (Apart u k trial k) × (all_to k (finite_at (row z k m.old)) ≡ true) }
    ensures { Wrote trial k (build (moved_at k (row l (k * k) m.old) (row z k m.old) 0 (row u k m.old)) k) m.old
        m.new }
{
    let le = l + k * k;
    let ze = z + k;
    for i in 0..k {
        let by = spread_at(&m[l..le], k, &m[z..ze], i);
        m[trial + i] = m[u + i] + by;
    }
}

// Λu into the q places at b, u standing in the q places at u: one column after another, so that the sum at every place ascends.
pub fn lambda_within(shape: Shape, theta: &[f64], q: usize, u: usize, b: usize, m: &mut [f64])
    requires shape_value { (good_shape shape ≡ true) × (q ≡ effects_of shape) × (theta_length shape ≤ length theta.now) }
    requires q_in_bounds { (u + q ≤ length m.old) × (b + q ≤ length m.old) × (Apart u q b q) }
    ensures { Wrote b q (build (lambda_times_at shape theta.now (row u q m.old)) q) m.old m.new }
{
    let e = b + q;
    base::wipe(&mut m[b..e], q);
    for j in 0..q {
        let c = column_of(shape, j);
        let x = m[u + j];
        let at = b + j;
        add_column(theta, c.first, c.count, x, at, m);
    }
}

// The penalty of k effects t against their û: the sum of t² - û².
pub fn group_penalty(t: &[f64], u: &[f64], k: usize) -> f64
    requires { (k ≤ length t.now) × (k ≤ length u.now) }
    ensures { result ≡ sum_to k (penalty_at t.now u.now) }
{
    let mut sum = 0.0;
    for i in 0..k {
        sum = sum + (t[i] * t[i] - u[i] * u[i]);
    }
    sum
}
