// Runs Λ on three blocks (two groups of one effect, one of three, two of two) and prints where its columns stand, its products, and A, every bit.
// Each buffer holds 9 before and is longer than what is written: the rest stays.
#![tactic(auto)]

ghost use Rattle.std.specs.Prelude.{◌≡◌, true, ◌≤◌, length};
ghost use Rattle.model.specs.Shape.{effects_of, theta_length, good_shape};

use model::Shape;

// Numbers between 0 and 1 in no order.
fn scatter(from: f64, out: &mut [f64], n: usize)
    requires { n ≤ length out.old }
{
    let mut x = from;
    for place in &mut out[..n] {
        *place = x;
        x = 3.9 * x * (1.0 - x);
    }
}

// Where each column begins in theta, and how many numbers it has.
fn columns(shape: Shape)
    requires { (good_shape shape ≡ true) × (9 ≡ effects_of shape) }
{
    text::put_word(b"columns");
    for j in 0..9 {
        let c = lambda::column_of(shape, j);
        text::put_count(c.first as u64);
        text::put_count(c.count as u64);
    }
    text::end_line();
}

fn products(shape: Shape, theta: &[f64])
    requires { (good_shape shape ≡ true) × (9 ≡ effects_of shape) × (theta_length shape ≤ length theta.now) }
{
    let mut u = [9.0; 10];
    scatter(0.61, &mut u, 9);
    let mut out = [9.0; 10];
    lambda::lambda_times(shape, theta, 9, &u, &mut out);
    text::put_list(b"times", &out, 10);
    lambda::lambda_transposed(shape, theta, 9, &mut u);
    text::put_list(b"transposed", &u, 10);
}

fn square(shape: Shape, theta: &[f64])
    requires { (good_shape shape ≡ true) × (9 ≡ effects_of shape) × (theta_length shape ≤ length theta.now) }
{
    let mut s = [9.0; 82];
    scatter(0.29, &mut s, 81);
    let mut k = [9.0; 82];
    lambda::right_columns(shape, theta, 9, &s, &mut k);
    text::put_list(b"right", &k, 82);
    lambda::system(shape, theta, 9, &k, &mut s);
    text::put_list(b"system", &s, 82);
}

fn run(shape: Shape, theta: &[f64]) {
    if model::shape_ok(shape)
        && model::effects(shape) == 9
        && model::theta_length(shape) <= theta.len()
    {
        columns(shape);
        products(shape, theta);
        square(shape, theta);
    }
}

fn main() {
    let theta = [0.7, 1.1, -0.3, 0.0, 0.9, 1e-9, 0.4, 1.3, -2.1, 0.6];
    let shape = Shape {
        count: 3,
        m: [2, 1, 2, 0, 0, 0, 0, 0],
        k: [1, 3, 2, 0, 0, 0, 0, 0],
    };
    run(shape, &theta);
}
