// Runs the functions of `results`, and wipes work slices, and prints every bit. The lists, and the words before them, are fed by tools/cases/results.py.
// The buffers of single functions are longer than what is written and hold 9 before: the rest stays.
#![tactic(auto)]

ghost use Rattle.std.specs.Prelude.{◌≡◌, true, ◌≤◌, length};
ghost use Rattle.model.specs.Shape.{effects_of, theta_length, good_shape};

use model::Shape;

// Every number of a list, behind the next word.
fn put_all(xs: &[f64]) {
    fed::put_name();
    text::put_list(b"", xs, xs.len());
}

// Standard errors and z values, of three columns.
fn errors(v: &[f64], beta: &[f64; 3])
    requires { 9 ≤ length v.now }
{
    let mut se = [9.0; 4];
    let mut z = [9.0; 4];
    results::standard_errors(v, 3, &mut se);
    results::z_values(beta, &se, 3, &mut z);
    put_all(&se);
    put_all(&z);
}

// v, and the standard errors and z values that are made of it.
fn fixed(columns: &[f64; 9]) {
    let mut v = [9.0; 10];
    results::v_rows(columns, 3, &mut v);
    put_all(&v);
    errors(&v, &fed::next_numbers::<3>());
}

// What the means leave of five responses.
fn residuals() {
    let mut out = [9.0; 6];
    results::residuals(
        &fed::next_numbers::<5>(),
        &fed::next_numbers::<5>(),
        5,
        &mut out,
    );
    put_all(&out);
}

fn put_nine(
    beta: &[f64; 2],
    se: &[f64; 2],
    z: &[f64; 2],
    u: &[f64; 4],
    b: &[f64; 4],
    mu: &[f64; 4],
    eta: &[f64; 4],
    residual: &[f64; 4],
    v: &[f64; 4],
) {
    put_all(beta);
    put_all(se);
    put_all(z);
    put_all(u);
    put_all(b);
    put_all(mu);
    put_all(eta);
    put_all(residual);
    put_all(v);
}

// All nine of a mode: four observations, two columns, a block of two groups with one effect and one of a group with two.
fn all_nine(
    shape: Shape,
    theta: &[f64; 4],
    y: &[f64; 4],
    columns: &[f64; 4],
    mode_beta: &[f64; 2],
    mode_u: &[f64; 4],
    mode_mu: &[f64; 4],
    mode_eta: &[f64; 4],
)
    requires { (good_shape shape ≡ true) × (4 ≡ effects_of shape) × (theta_length shape ≤ 4) }
{
    let mut beta = [9.0; 2];
    let mut se = [9.0; 2];
    let mut z = [9.0; 2];
    let mut u = [9.0; 4];
    let mut b = [9.0; 4];
    let mut mu = [9.0; 4];
    let mut eta = [9.0; 4];
    let mut residual = [9.0; 4];
    let mut v = [9.0; 4];
    results::write_results(
        shape,
        theta,
        y,
        4,
        2,
        4,
        columns,
        mode_beta,
        mode_u,
        mode_mu,
        mode_eta,
        &mut beta,
        &mut se,
        &mut z,
        &mut u,
        &mut b,
        &mut mu,
        &mut eta,
        &mut residual,
        &mut v,
    );
    put_nine(&beta, &se, &z, &u, &b, &mu, &eta, &residual, &v);
}

// `all_nine` of the next lists.
fn next_nine(shape: Shape)
    requires { (good_shape shape ≡ true) × (4 ≡ effects_of shape) × (theta_length shape ≤ 4) }
{
    all_nine(
        shape,
        &fed::next_numbers::<4>(),
        &fed::next_numbers::<4>(),
        &fed::next_numbers::<4>(),
        &fed::next_numbers::<2>(),
        &fed::next_numbers::<4>(),
        &fed::next_numbers::<4>(),
        &fed::next_numbers::<4>(),
    );
}

// Asks first what `next_nine` relies on.
fn run(shape: Shape) {
    if model::shape_ok(shape) && model::effects(shape) == 4 && model::theta_length(shape) <= 4 {
        next_nine(shape);
    }
}

// The smallest sizes, and one number more in each slice; of the terms the last three are printed.
fn wiped() {
    let mut rows = [9.0; 17];
    let mut matrices = [9.0; 34];
    let mut terms = [9.0; 7001];
    wipe::wipe_work(1, 1, 1, &mut rows, &mut matrices, &mut terms);
    put_all(&rows);
    put_all(&matrices);
    put_all(&terms[6998..7001]);
}

fn main() {
    fixed(&fed::next_numbers::<9>());
    fixed(&fed::next_numbers::<9>());
    errors(&fed::next_numbers::<9>(), &fed::next_numbers::<3>());
    residuals();
    run(Shape {
        count: 2,
        m: [2, 1, 0, 0, 0, 0, 0, 0],
        k: [1, 2, 0, 0, 0, 0, 0, 0],
    });
    wiped();
}
