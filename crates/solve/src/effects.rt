// From β to Zb: u, b = Λu, and Zb.
ghost use Rattle.std.specs.Prelude.{◌≡◌, true, ◌+◌, ◌*◌, ◌≤◌, length};
ghost use Rattle.base.specs.List.{build};
ghost use Rattle.base.specs.Rows.{row, Wrote};
ghost use Rattle.linear.specs.Product.{effect_at};
ghost use Rattle.model.specs.Shape.{effects_of, theta_length, good_shape};
ghost use Rattle.stored.specs.Stored.{z_times_at};
ghost use Rattle.solve.specs.Effects.{EffectsLeft};
ghost use Rattle.stored.specs.Lent.{sparse_in, RowsIn};

use model::Shape;
use stored::Sparse;

// u into the q places of t from spare on: wy less each solved column times its β, which stand in m.
pub fn solve_u(
    q: usize,
    p: usize,
    wy: usize,
    solved: usize,
    beta: usize,
    m: &[f64],
    spare: usize,
    t: &mut [f64],
)
    requires { (wy + q ≤ length m.now) × (solved + p * q ≤ length m.now) × (beta + p ≤ length m.now) × (spare + q ≤ length t.old) }
    ensures { Wrote spare q (build (effect_at (row wy q m.now) (row solved (p * q) m.now) q p (row beta p m.now)) q) t.old
        t.new }
{
    let ye = wy + q;
    let se = solved + p * q;
    let be = beta + p;
    let e = spare + q;
    linear::effects_less(
        &m[wy..ye],
        &m[solved..se],
        &m[beta..be],
        q,
        p,
        &mut t[spare..e],
    );
}

// The u that stands at spare of t into m, and b = Λu behind it.
pub fn effects_into(
    shape: Shape,
    theta: &[f64],
    q: usize,
    spare: usize,
    t: &[f64],
    u: usize,
    m: &mut [f64],
)
    requires shape_value { (good_shape shape ≡ true) × (q ≡ effects_of shape) × (theta_length shape ≤ length theta.now) }
    requires q_in_bounds { (spare + q ≤ length t.now) × (u + q + q ≤ length m.old) }
    ensures { EffectsLeft shape theta.now u q (row spare q t.now) m.old m.new }
{
    let e = spare + q;
    let b = u + q;
    let be = b + q;
    base::copy(&t[spare..e], &mut m[u..b], q);
    lambda::lambda_times(shape, theta, q, &t[spare..e], &mut m[b..be]);
}

// Zb into the n places of r from raw on, the b of m.
pub fn zb_into(zt: &Sparse<'_>, q: usize, n: usize, b: usize, m: &[f64], raw: usize, r: &mut [f64])
    requires rows { RowsIn zt.now q n }
    requires q_in_bounds { (b + q ≤ length m.now) × (raw + n ≤ length r.old) }
    ensures { Wrote raw n (build (z_times_at (sparse_in zt.now) q (row b q m.now)) n) r.old
        r.new }
{
    let e = b + q;
    let end = raw + n;
    stored::z_times(zt, q, n, &m[b..e], &mut r[raw..end]);
}
