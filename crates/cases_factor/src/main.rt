// Factors small matrices, well and badly scaled, solves with the factors, one right side or several, and inverts them, and prints every bit.
// What stands above a diagonal is NaN in the matrix and 9 in the buffer: the first is not read, the second stays.
#![tactic(auto)]

ghost use Rattle.std.specs.Prelude.{◌*◌, ◌≤◌, ◌<◌};

// How a factorisation ended: -, or the pivot that failed.
fn put_end(end: Result<(), usize>) {
    match end {
        Ok(()) => {
            text::put_word(b" -");
        }
        Err(i) => {
            text::put_count(i as u64);
        }
    }
    text::end_line();
}

// Row a of v.
fn put_v_row(columns: &[f64; 16], p: usize, a: usize)
    requires { (a < p) × (p * p ≤ 16) }
{
    text::put_word(b"v");
    for b in 0..p {
        text::put_double(factor::v_at(columns, p, a, b));
    }
    text::end_line();
}

fn put_v(columns: &[f64; 16], p: usize)
    requires { p * p ≤ 16 }
{
    for a in 0..p {
        put_v_row(columns, p, a);
    }
}

// A solution and the inverse through the factor l of LDL', whatever its end.
fn with_ldl(l: &[f64; 16], s: usize)
    requires { (s ≤ 4) × (s * s ≤ 16) }
{
    let mut x = [1.0, -2.0, 0.3, 3.0];
    factor::ldl_solve(l, s, &mut x);
    text::put_list(b"solution", &x, 4);
    let mut inverse = [9.0; 16];
    factor::ldl_inverse(l, s, &mut inverse);
    text::put_list(b"inverse", &inverse, 16);
}

// A solution, the inverse and v with the Cholesky factor l, whatever its end.
fn with_cholesky(l: &[f64; 16], s: usize)
    requires { (s ≤ 4) × (s * s ≤ 16) }
{
    let mut x = [1.0, -2.0, 0.3, 3.0];
    factor::cholesky_solve(l, s, &mut x);
    text::put_list(b"solution", &x, 4);
    let mut columns = [9.0; 16];
    factor::cholesky_inverse(l, s, &mut columns);
    text::put_list(b"columns", &columns, 16);
    put_v(&columns, s);
}

fn by_ldl(a: &[f64; 16], s: usize)
    requires { (s ≤ 4) × (s * s ≤ 16) }
{
    let mut l = [9.0; 16];
    let end = factor::ldl(a, s, &mut l);
    text::put_word(b"ldl");
    put_end(end);
    text::put_list(b"factor", &l, 16);
    with_ldl(&l, s);
}

fn by_cholesky(a: &[f64; 16], s: usize)
    requires { (s ≤ 4) × (s * s ≤ 16) }
{
    let mut l = [9.0; 16];
    base::copy(a, &mut l, 16);
    let end = factor::cholesky(&mut l, s);
    text::put_word(b"cholesky");
    put_end(end);
    text::put_list(b"factor", &l, 16);
    with_cholesky(&l, s);
}

fn both(a: &[f64; 16], s: usize)
    requires { (s ≤ 4) × (s * s ≤ 16) }
{
    text::put_list(b"matrix", a, 16);
    by_ldl(a, s);
    by_cholesky(a, s);
}

// The matrices by their lower triangles, row by row.
fn one(a: f64) {
    let mut m = [0.0; 16];
    m[0] = a;
    both(&m, 1);
}

fn two(a: f64, b: f64, c: f64) {
    let n = 0.0 / 0.0;
    let z = 0.0;
    both(&[a, n, b, c, z, z, z, z, z, z, z, z, z, z, z, z], 2);
}

fn three(a: f64, b: f64, c: f64, d: f64, e: f64, f: f64) {
    let n = 0.0 / 0.0;
    let z = 0.0;
    both(&[a, n, n, b, c, n, d, e, f, z, z, z, z, z, z, z], 3);
}

fn four(a: f64, b: f64, c: f64, d: f64, e: f64, f: f64, g: f64, h: f64, i: f64, j: f64) {
    let n = 0.0 / 0.0;
    both(&[a, n, n, n, b, c, n, n, d, e, f, n, g, h, i, j], 4);
}

// Every kind of number as the only pivot.
fn ones() {
    let nan = 0.0 / 0.0;
    let inf = base::infinity();
    one(4.0);
    one(0.0);
    one(-0.0);
    one(-3.0);
    one(2.0);
    one(5e-324);
    one(1e308);
    one(nan);
    one(inf);
    one(-inf);
}

// Regular, singular, negative, with an overflow or an underflow on the way, not finite.
fn twos() {
    let nan = 0.0 / 0.0;
    let inf = base::infinity();
    two(4.0, 2.0, 3.0);
    two(1.0, 1.0, 1.0);
    two(0.0, 1.0, 2.0);
    two(-4.0, 2.0, 3.0);
    two(0.1, 0.3, 0.7);
    two(1e-300, 1.0, 1.0);
    two(1e-200, 1e200, 1.0);
    two(1e-320, 3e-322, 1.0);
    two(2.0, nan, 3.0);
    two(3.0, 1.0, inf);
    two(-0.0, 0.0, 1.0);
    two(1e160, 1e159, 1e160);
    two(inf, 1.0, 2.0);
}

// The same of size 3; the third is a part of Hilbert's matrix.
fn threes() {
    let nan = 0.0 / 0.0;
    let inf = base::infinity();
    three(4.0, 2.0, 5.0, -2.0, 1.0, 6.0);
    three(4.0, 2.0, 10.0, -2.0, 2.0, 6.0);
    three(1.0, 0.5, 0.3333333333333333, 0.3333333333333333, 0.25, 0.2);
    three(0.1, 0.2, 0.7, 0.3, -0.4, 0.9);
    three(1.0, 2.0, 4.0, 3.0, 6.0, 9.0);
    three(2.0, 1.0, -3.0, 0.5, 0.25, -1.0);
    three(1e-8, 1e3, 1e20, 2.0, 3.0, 4.0);
    three(7.0, 1.0, 3.0, 2.0, nan, 5.0);
    three(1.0, 0.0, 1.0, inf, 0.0, 1.0);
    three(3.0, 1.0, 2.0, 1.0, 1.0, 0.6);
    three(1e-300, 1e-150, 2.0, 1e-155, 1.0, 3.0);
}

// The same of size 4.
fn fours() {
    let nan = 0.0 / 0.0;
    let inf = base::infinity();
    four(4.0, 1.0, 5.0, -1.0, 0.5, 6.0, 0.25, -0.75, 1.5, 7.0);
    four(
        1.0,
        0.5,
        0.3333333333333333,
        0.3333333333333333,
        0.25,
        0.2,
        0.25,
        0.2,
        0.16666666666666666,
        0.14285714285714285,
    );
    four(0.3, 0.1, 0.7, -0.2, 0.15, 1.1, 0.05, -0.35, 0.45, 0.9);
    four(1e-12, 1e-6, 5.0, 3e-7, 0.25, 1e6, 1e-3, 12.0, 700.0, 1e12);
    four(2.0, 1.0, 2.0, 1.0, 1.0, 2.0, 1.0, 1.0, 1.0, 1.0);
    four(2.0, 1.0, 2.0, 1.0, 1.0, 2.0, 2.0, 2.0, 2.0, 3.0);
    four(-1.0, 0.5, 2.0, 0.25, 1.5, -3.0, 0.125, 0.75, 2.5, 4.0);
    four(1.0, 0.1, 1.0, 0.2, 0.3, 1.0, 0.4, nan, 0.6, 1.0);
    four(9.0, 3.0, 5.0, 1.0, 2.0, 4.0, 0.5, 1.0, inf, 8.0);
}

// Of two right sides of 4 numbers the first `count` solved in one call.
fn sides(l: &[f64; 16], right: &[f64; 8], count: usize)
    requires { count ≤ 2 }
{
    let mut x = [0.0; 8];
    base::copy(right, &mut x, 8);
    factor::ldl_solve_columns(l, 4, count, &mut x);
    text::put_list(b"right", right, 8);
    text::put_list(b"solutions", &x, 8);
}

// With a factor of the last pivot d, whose rows and columns have zeros of either sign at their heads: sides that are finite, with an infinity
// or a NaN, and with an overflow on the way. A zero times what is not finite is NaN.
fn with_zeros(d: f64) {
    let n = 0.0 / 0.0;
    let inf = base::infinity();
    let z = 0.0;
    let m = -0.0;
    let l = [2.0, n, n, n, z, 0.3, n, n, m, 0.5, 8.0, n, z, m, 0.25, d];
    text::put_list(b"factor", &l, 16);
    sides(&l, &[1.0, -2.0, 0.3, 3.0, 0.1, 0.2, -0.3, 0.7], 0);
    sides(&l, &[1.0, -2.0, 0.3, 3.0, 0.1, 0.2, -0.3, 0.7], 1);
    sides(&l, &[1.0, -2.0, 0.3, 3.0, 0.1, 0.2, -0.3, 0.7], 2);
    sides(&l, &[inf, -2.0, 0.3, 3.0, 0.1, 0.2, -0.3, 0.7], 2);
    sides(&l, &[1.0, -2.0, 0.3, 3.0, 0.1, -inf, -0.3, 0.7], 2);
    sides(&l, &[1.0, -2.0, 0.3, 3.0, 0.1, 1e308, -1.7e308, 0.7], 2);
    sides(&l, &[-1.0, n, 7.0, 1e-3, 1.0, -2.0, 1e308, 3.0], 2);
}

fn main() {
    ones();
    twos();
    threes();
    fours();
    with_zeros(0.5);
    with_zeros(1e-310);
}
