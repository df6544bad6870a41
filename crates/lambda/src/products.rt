// Λ'v and Λu, column by column of Λ.
ghost use Rattle.std.specs.Prelude.{◌≡◌, true, ◌+◌, ◌≤◌, length};
ghost use Rattle.base.specs.List.{fill_to, fill_at};
ghost use Rattle.model.specs.Shape.{effects_of, theta_length, good_shape};
ghost use Rattle.lambda.specs.Parts.{is_single, scaled_at};
ghost use Rattle.lambda.specs.Product.{column_added_at, lambda_times_at, lambda_transposed_at};

use crate::column::column_of;
use model::Shape;

// Whether every column of Λ is the one number of theta on the diagonal: one block, of one effect a group.
fn is_single(shape: Shape) -> bool
    ensures { result ≡ is_single shape }
{
    shape.count == 1 && shape.k[0] == 1
}

// x times each of the first q numbers of v, in place: Λ'v where Λ is x times the unit matrix.
fn scale(x: f64, q: usize, v: &mut [f64])
    requires { q ≤ length v.old }
    ensures { v.new ≡ fill_to q (scaled_at x v.old) v.old }
{
    for j in 0..q {
        v[j] = 0.0 + x * v[j];
    }
}

// Λ'v over v: column j looks at no entry before j, so each is replaced as soon as it is used up.
fn columns_transposed(shape: Shape, theta: &[f64], q: usize, v: &mut [f64])
    requires shape_value { (good_shape shape ≡ true) × (q ≡ effects_of shape) }
    requires shape_in_bounds { (theta_length shape ≤ length theta.now) × (q ≤ length v.old) }
    ensures { v.new ≡ fill_to q (lambda_transposed_at shape theta.now v.old) v.old }
{
    for j in 0..q {
        let c = column_of(shape, j);
        let sum = base::dot_from(theta, c.first, &v[j..], c.count);
        v[j] = sum;
    }
}

// A column's numbers, times x, to what stands in its rows.
pub fn add_column(theta: &[f64], first: usize, count: usize, x: f64, j: usize, out: &mut [f64])
    requires { (first + count ≤ length theta.now) × (j + count ≤ length out.old) }
    ensures { out.new ≡ fill_at j count (column_added_at theta.now first x out.old j) out.old }
{
    for t in 0..count {
        out[j + t] = out[j + t] + theta[first + t] * x;
    }
}

// Λu into out: one column after another, so that the sum at every place ascends.
fn columns_times(shape: Shape, theta: &[f64], q: usize, u: &[f64], out: &mut [f64])
    requires shape_value { (good_shape shape ≡ true) × (q ≡ effects_of shape) }
    requires shape_in_bounds { (theta_length shape ≤ length theta.now) × (q ≤ length u.now) × (q ≤ length out.old) }
    ensures { out.new ≡ fill_to q (lambda_times_at shape theta.now u.now) out.old }
{
    base::wipe(out, q);
    for j in 0..q {
        let c = column_of(shape, j);
        let x = u[j];
        add_column(theta, c.first, c.count, x, j, out);
    }
}

// Λ'v over v; where Λ is one number times the unit matrix no column is looked for.
pub fn lambda_transposed(shape: Shape, theta: &[f64], q: usize, v: &mut [f64])
    requires shape_value { (good_shape shape ≡ true) × (q ≡ effects_of shape) }
    requires shape_in_bounds { (theta_length shape ≤ length theta.now) × (q ≤ length v.old) }
    ensures { v.new ≡ fill_to q (lambda_transposed_at shape theta.now v.old) v.old }
{
    if is_single(shape) {
        let x = theta[0];
        scale(x, q, v);
        return;
    }
    columns_transposed(shape, theta, q, v);
}

// Λu into out, in the same way.
pub fn lambda_times(shape: Shape, theta: &[f64], q: usize, u: &[f64], out: &mut [f64])
    requires shape_value { (good_shape shape ≡ true) × (q ≡ effects_of shape) }
    requires shape_in_bounds { (theta_length shape ≤ length theta.now) × (q ≤ length u.now) × (q ≤ length out.old) }
    ensures { out.new ≡ fill_to q (lambda_times_at shape theta.now u.now) out.old }
{
    if is_single(shape) {
        let x = theta[0];
        base::copy(u, out, q);
        scale(x, q, out);
        return;
    }
    columns_times(shape, theta, q, u, out);
}
