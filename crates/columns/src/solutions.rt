// The columns V, and W from them.
ghost use Rattle.std.specs.Prelude.{◌≡◌, true, ◌+◌, ◌*◌, ◌≤◌, ◌<◌, length};
ghost use Rattle.base.specs.List.{build, matrix, fill_to, grid_to};
ghost use Rattle.base.specs.Rows.{row, Wrote};
ghost use Rattle.model.specs.Shape.{effects_of, theta_length, good_shape};
ghost use Rattle.factor.specs.Sides.{ldl_columns_at};
ghost use Rattle.columns.specs.Pieces.{column_at, unsolved_at};

use model::Shape;

// Column a of the q rows of s, which are p long, into out.
fn gather(s: &[f64], q: usize, p: usize, a: usize, out: &mut [f64])
    requires { (q * p ≤ length s.now) × (a < p) × (q ≤ length out.old) }
    ensures { out.new ≡ fill_to q (column_at s.now p a) out.old }
{
    for g in 0..q {
        let o = base::offset(g, q, p);
        out[g] = s[o + a];
    }
}

// Λ' times that column, into the q places of out.
fn unsolved_column(
    shape: Shape,
    theta: &[f64],
    s: &[f64],
    q: usize,
    p: usize,
    a: usize,
    out: &mut [f64],
)
    requires shape_value { (good_shape shape ≡ true) × (q ≡ effects_of shape) × (theta_length shape ≤ length theta.now) }
    requires p_in_bounds { (q * p ≤ length s.now) × (a < p) × (length out.old ≡ q) }
    ensures { out.new ≡ build (unsolved_at shape theta.now s.now p q a) q }
{
    gather(s, q, p, a, out);
    lambda::lambda_transposed(shape, theta, q, out);
}

// The columns V, one behind the other, into out.
fn unsolved_columns(shape: Shape, theta: &[f64], s: &[f64], q: usize, p: usize, out: &mut [f64])
    requires shape_value { (good_shape shape ≡ true) × (q ≡ effects_of shape) × (theta_length shape ≤ length theta.now) }
    requires p_in_bounds { (q * p ≤ length s.now) × (p * q ≤ length out.old) }
    ensures { out.new ≡ grid_to p q (unsolved_at shape theta.now s.now p q) out.old }
{
    for a in 0..p {
        let o = base::offset(a, p, q);
        let e = o + q;
        unsolved_column(shape, theta, s, q, p, a, &mut out[o..e]);
    }
}

// The columns V into the p·q places of t from unsolved on, Z'(x_a·w) for each a being at solved of m.
pub fn unsolved_into(
    shape: Shape,
    theta: &[f64],
    q: usize,
    p: usize,
    solved: usize,
    m: &[f64],
    unsolved: usize,
    t: &mut [f64],
)
    requires shape_value { (good_shape shape ≡ true) × (q ≡ effects_of shape) × (theta_length shape ≤ length theta.now) }
    requires p_in_bounds { (solved + q * p ≤ length m.now) × (unsolved + p * q ≤ length t.old) }
    ensures { Wrote unsolved (p * q) (matrix p q (unsolved_at shape theta.now (row solved (q * p) m.now) p q)) t.old t.new }
{
    let se = solved + q * p;
    let e = unsolved + p * q;
    unsolved_columns(shape, theta, &m[solved..se], q, p, &mut t[unsolved..e]);
}

// The solutions with the factor l of the p columns v, into out.
fn solved_copies(v: &[f64], l: &[f64], q: usize, p: usize, out: &mut [f64])
    requires { (length v.now ≡ p * q) × (q * q ≤ length l.now) × (length out.old ≡ p * q) }
    ensures { out.new ≡ matrix p q (ldl_columns_at q l.now v.now) }
{
    base::copy(v, out, p * q);
    factor::ldl_solve_columns(l, q, p, out);
}

// The columns W, with the factor at the front of t, into the p·q places of m from solved on, V being at unsolved of t.
pub fn solved_into(q: usize, p: usize, unsolved: usize, t: &[f64], solved: usize, m: &mut [f64])
    requires { (q * q ≤ length t.now) × (unsolved + p * q ≤ length t.now) × (solved + p * q ≤ length m.old) }
    ensures { Wrote solved (p * q) (matrix p q (ldl_columns_at q (row 0 (q * q) t.now) (row unsolved (p * q) t.now))) m.old
        m.new }
{
    let square = q * q;
    let ve = unsolved + p * q;
    let e = solved + p * q;
    solved_copies(&t[unsolved..ve], &t[0..square], q, p, &mut m[solved..e]);
}
