// Right sides of the system, Λ'(Z'v), and their solutions.
ghost use Rattle.std.specs.Prelude.{◌≡◌, ◌+◌, ◌*◌, ◌≤◌, length};
ghost use Rattle.solve.specs.Ready.{Whatever, IsSide, SolvedSide, ReadyIn};
ghost use Rattle.stored.specs.Lent.{sparse_in};

use model::Shape;
use stored::Sparse;

// Λ'(Z'v) into out, which has q places.
pub fn side(
    shape: Shape,
    theta: &[f64],
    zt: &Sparse<'_>,
    q: usize,
    n: usize,
    v: &[f64],
    out: &mut [f64],
)
    requires ready { ReadyIn shape theta.now zt.now q n }
    requires n_in_bounds { (n ≤ length v.now) × (length out.old ≡ q) }
    ensures { Whatever n shape theta.now (sparse_in zt.now)
        (IsSide v.now out.new) }
{
    stored::zt_times(zt, q, n, v, out);
    lambda::lambda_transposed(shape, theta, q, out);
}

// The solution with the factor l of Λ'(Z'v) into the q places of m from wy on.
pub fn solve_side(
    shape: Shape,
    theta: &[f64],
    zt: &Sparse<'_>,
    q: usize,
    n: usize,
    v: &[f64],
    l: &[f64],
    wy: usize,
    m: &mut [f64],
)
    requires ready { ReadyIn shape theta.now zt.now q n }
    requires n_in_bounds { (n ≤ length v.now) × (q * q ≤ length l.now) × (wy + q ≤ length m.old) }
    ensures { Whatever n shape theta.now (sparse_in zt.now)
        (SolvedSide v.now l.now wy m.old m.new) }
{
    let e = wy + q;
    side(shape, theta, zt, q, n, v, &mut m[wy..e]);
    factor::ldl_solve(l, q, &mut m[wy..e]);
}
