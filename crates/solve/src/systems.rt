// A and its factor.
ghost use Rattle.std.specs.Prelude.{◌+◌, ◌*◌, ◌≤◌, length};
ghost use Rattle.base.specs.Rows.{row};
ghost use Rattle.solve.specs.Ready.{Whatever, ReadyIn};
ghost use Rattle.solve.specs.System.{SystemLeaves};
ghost use Rattle.stored.specs.Lent.{sparse_in};

use model::Shape;
use stored::Sparse;

// From the weights at w of t: Z'WZ into m, (Z'WZ)Λ by its columns into t, A into m, LDL' of A into t, each at the front.
pub fn factor_system(
    shape: Shape,
    theta: &[f64],
    zt: &Sparse<'_>,
    n: usize,
    q: usize,
    w: usize,
    t: &mut [f64],
    m: &mut [f64],
) -> Result<(), usize>
    requires ready { ReadyIn shape theta.now zt.now q n }
    requires q_bound { (q * q ≤ w) × (w + n ≤ length t.old) × (q * q ≤ length m.old) }
    ensures { Whatever n shape theta.now (sparse_in zt.now)
        (SystemLeaves (row w n t.old) t.old t.new m.old m.new result) }
{
    let e = w + n;
    let square = q * q;
    stored::ztwz(zt, q, n, &t[w..e], m);
    lambda::right_columns(shape, theta, q, &m[0..square], t);
    lambda::system(shape, theta, q, &t[0..square], m);
    factor::ldl(&m[0..square], q, t)
}
