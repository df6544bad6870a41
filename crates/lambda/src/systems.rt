// A = Λ'(SΛ) + I, S being Z'WZ. SΛ is held by its columns, so that both products go along rows.
ghost use Rattle.std.specs.Prelude.{◌≡◌, true, ◌+◌, ◌*◌, ◌≤◌, ◌<◌, eqb, length};
ghost use Rattle.base.specs.Number.{one_f};
ghost use Rattle.base.specs.Sum.{add_where};
ghost use Rattle.base.specs.List.{fill_at, grid_to};
ghost use Rattle.model.specs.Shape.{effects_of, theta_length, good_shape};
ghost use Rattle.lambda.specs.Product.{right_column_at, system_at};
ghost use Rattle.lambda.specs.Parts.{right_one, right_by, system_one, system_by};

use crate::column::column_of;
use model::Shape;

// Column c of SΛ into the q places of out from o on, where column c of Λ is the one number x: column c of S times it.
fn right_single(x: f64, q: usize, s: &[f64], c: usize, o: usize, out: &mut [f64])
    requires { (c < q) × (q * q ≤ length s.now) × (o + q ≤ length out.old) }
    ensures { out.new ≡ fill_at o q (right_one x q s.now c) out.old }
{
    for a in 0..q {
        let i = base::offset(a, q, q);
        out[o + a] = 0.0 + s[i + c] * x;
    }
}

// The same where it is the `count` numbers of theta from `first` on.
fn right_several(
    theta: &[f64],
    first: usize,
    count: usize,
    q: usize,
    s: &[f64],
    c: usize,
    o: usize,
    out: &mut [f64],
)
    requires { (first + count ≤ length theta.now) × (c + count ≤ q) × (c < q) × (q * q ≤ length s.now) × (o + q ≤ length out.old) }
    ensures { out.new ≡ fill_at o q (right_by first count theta.now q s.now c) out.old }
{
    for a in 0..q {
        let i = base::offset(a, q, q);
        out[o + a] = base::dot_from(s, i + c, &theta[first..], count);
    }
}

// Column c of SΛ into row c of out.
fn right_column(shape: Shape, theta: &[f64], q: usize, s: &[f64], c: usize, out: &mut [f64])
    requires shape_value { (good_shape shape ≡ true) × (q ≡ effects_of shape) × (c < q) }
    requires shape_in_bounds { (theta_length shape ≤ length theta.now) × (q * q ≤ length s.now) × (q * q ≤ length out.old) }
    ensures { out.new ≡ fill_at (c * q) q (right_column_at shape theta.now s.now c) out.old }
{
    let column = column_of(shape, c);
    let first = column.first;
    let o = base::offset(c, q, q);
    if column.count == 1 {
        let x = theta[first];
        right_single(x, q, s, c, o, out);
        return;
    }
    right_several(theta, first, column.count, q, s, c, o, out);
}

// The columns of SΛ.
pub fn right_columns(shape: Shape, theta: &[f64], q: usize, s: &[f64], out: &mut [f64])
    requires shape_value { (good_shape shape ≡ true) × (q ≡ effects_of shape) }
    requires shape_in_bounds { (theta_length shape ≤ length theta.now) × (q * q ≤ length s.now) × (q * q ≤ length out.old) }
    ensures { out.new ≡ grid_to q q (right_column_at shape theta.now s.now) out.old }
{
    for c in 0..q {
        right_column(shape, theta, q, s, c, out);
    }
}

// Beside each function above stands one for A: the factors of its products stand the other way round, and the unit matrix is added, so one function for both
// would be told the product and the end of each entry, and be longer than the two.

// One more on the diagonal.
fn plus_unit(x: f64, a: usize, c: usize) -> f64
    ensures { result ≡ add_where (eqb a c) x one_f }
{
    if a == c { x + 1.0 } else { x }
}

// Row a of A into the q places of out from o on, where column a of Λ is the one number x; k is SΛ by its columns.
fn system_single(x: f64, q: usize, k: &[f64], a: usize, o: usize, out: &mut [f64])
    requires { (a < q) × (q * q ≤ length k.now) × (o + q ≤ length out.old) }
    ensures { out.new ≡ fill_at o q (system_one x q k.now a) out.old }
{
    for c in 0..q {
        let i = base::offset(c, q, q);
        let sum = 0.0 + x * k[i + a];
        out[o + c] = plus_unit(sum, a, c);
    }
}

// The same where it is the `count` numbers of theta from `first` on.
fn system_several(
    theta: &[f64],
    first: usize,
    count: usize,
    q: usize,
    k: &[f64],
    a: usize,
    o: usize,
    out: &mut [f64],
)
    requires { (first + count ≤ length theta.now) × (a + count ≤ q) × (a < q) × (q * q ≤ length k.now) × (o + q ≤ length out.old) }
    ensures { out.new ≡ fill_at o q (system_by first count theta.now q k.now a) out.old }
{
    for c in 0..q {
        let i = base::offset(c, q, q) + a;
        let sum = base::dot_from(theta, first, &k[i..], count);
        out[o + c] = plus_unit(sum, a, c);
    }
}

// Row a of A, k being SΛ by its columns.
fn system_row(shape: Shape, theta: &[f64], q: usize, k: &[f64], a: usize, out: &mut [f64])
    requires shape_value { (good_shape shape ≡ true) × (q ≡ effects_of shape) × (a < q) }
    requires shape_in_bounds { (theta_length shape ≤ length theta.now) × (q * q ≤ length k.now) × (q * q ≤ length out.old) }
    ensures { out.new ≡ fill_at (a * q) q (system_at shape theta.now k.now a) out.old }
{
    let column = column_of(shape, a);
    let first = column.first;
    let o = base::offset(a, q, q);
    if column.count == 1 {
        let x = theta[first];
        system_single(x, q, k, a, o, out);
        return;
    }
    system_several(theta, first, column.count, q, k, a, o, out);
}

// A, k being SΛ by its columns.
pub fn system(shape: Shape, theta: &[f64], q: usize, k: &[f64], out: &mut [f64])
    requires shape_value { (good_shape shape ≡ true) × (q ≡ effects_of shape) }
    requires shape_in_bounds { (theta_length shape ≤ length theta.now) × (q * q ≤ length k.now) × (q * q ≤ length out.old) }
    ensures { out.new ≡ grid_to q q (system_at shape theta.now k.now) out.old }
{
    for a in 0..q {
        system_row(shape, theta, q, k, a, out);
    }
}
