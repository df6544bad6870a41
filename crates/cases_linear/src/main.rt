// Runs the products of `linear` and `stored` on small inputs whose sums depend on their order, and prints every bit.
// Each buffer is longer than what is written and holds 9 before: the rest stays.
#![tactic(auto)]

ghost use Rattle.std.specs.Prelude.{◌≡◌, ◌*◌, ◌≤◌, length};
ghost use Rattle.stored.specs.Lent.{RowsIn};

use stored::Sparse;

// X of three rows and two columns.
fn x_beta() {
    let mut out = [9.0; 4];
    linear::x_beta(
        &[1.0, 1e16, 0.1, -1e16, 0.7, 3.0],
        &[0.3, 1.0],
        3,
        2,
        &mut out,
    );
    text::put_list(b"x_beta", &out, 4);
}

fn products() {
    let mut out = [9.0; 4];
    linear::products(&[1.8, 0.1, -0.0], &[0.7, 3.0, 1e16], 3, &mut out);
    text::put_list(b"products", &out, 4);
}

// The rows of a square up to the diagonal, a line each.
fn put_rows(p: usize, out: &[f64])
    requires { p * p ≤ length out.now }
{
    for a in 0..p {
        let o = base::offset(a, p, p);
        let e = o + p;
        text::put_list(b"cross", &out[o..e], a + 1);
    }
}

// X'WX up to its diagonal; nothing is promised of what stands behind. Here the buffer is as long as what is written.
fn cross(x: &[f64], p: usize, out: &mut [f64])
    requires { (3 * p ≤ length x.now) × (length out.old ≡ p * p) }
{
    linear::cross_rows(x, &[1.8, 0.1, 0.7], 3, p, out);
    put_rows(p, out);
}

// X of one, two and three columns: those of three are summed two at a time, the last two begun earlier. Sums of 1e16 and little, of -0.0 and of infinities.
fn few_columns() {
    let mut one = [9.0; 1];
    cross(&[1e8, 4.1, 1.3], 1, &mut one);
    let mut four = [9.0; 4];
    cross(&[0.9, 2.4, -2.3, -0.2, -1.5, 0.3], 2, &mut four);
    let mut nine = [9.0; 9];
    cross(
        &[1e200, -0.0, 1e200, 7.0, -0.0, -1.0, 1e200, -0.0, -1e200],
        3,
        &mut nine,
    );
}

// n numbers that do not repeat.
fn scatter(n: usize, out: &mut [f64])
    requires { n ≤ length out.old }
{
    let mut v = 0.3;
    for place in &mut out[..n] {
        v = 3.7 * v * (1.0 - v);
        *place = v - 0.5;
    }
}

// X of eight and of thirteen columns: six and twelve at a time, the last six begun earlier.
fn many_columns() {
    let mut x = [9.0; 39];
    scatter(39, &mut x);
    let mut eight = [9.0; 64];
    cross(&x, 8, &mut eight);
    let mut thirteen = [9.0; 169];
    cross(&x, 13, &mut thirteen);
}

// Two solved columns of three numbers.
fn effects() {
    let mut out = [9.0; 4];
    linear::effects_less(
        &[1.0, 0.7, 1e16],
        &[0.1, 1e16, 3.0, 0.3, -1e16, 0.9],
        &[0.7, 1.1],
        3,
        2,
        &mut out,
    );
    text::put_list(b"effects", &out, 4);
}

fn side(zt: &Sparse<'_>)
    requires { RowsIn zt.now 5 5 }
{
    let mut out = [9.0; 6];
    stored::zt_times(zt, 5, 5, &[1.0, 0.7, 3.0, 1.0, 0.3], &mut out);
    text::put_list(b"zt_times", &out, 6);
}

fn square(zt: &Sparse<'_>)
    requires { RowsIn zt.now 5 5 }
{
    let mut out = [9.0; 26];
    stored::ztwz(zt, 5, 5, &[1.8, 0.1, 0.7, 1.3, 0.3], &mut out);
    text::put_list(b"ztwz", &out, 26);
}

fn summed(zt: &Sparse<'_>)
    requires { RowsIn zt.now 5 5 }
{
    let mut out = [9.0; 6];
    stored::z_times(zt, 5, 5, &[0.3, 5.0, 1.1, 1.7, 0.7], &mut out);
    text::put_list(b"z_times", &out, 6);
}

// Five rows of Z' over five observations: 1 3 4, none, 0 2 3 4, 1 3 4, 0 2. Some rows meet, some do not.
fn stored_rows() {
    let starts = [0, 3, 3, 7, 10, 12];
    let columns = [1, 3, 4, 0, 2, 3, 4, 1, 3, 4, 0, 2];
    let values = [
        0.1, -0.7, 0.3, 1e16, 1.1, -1e16, 0.9, 0.7, 0.9, 1.9, 2.3, 0.6,
    ];
    if base::rows_ok(&starts, &columns, 5, 5) {
        let zt = Sparse {
            starts: &starts,
            columns: &columns,
            values: &values,
        };
        side(&zt);
        square(&zt);
        summed(&zt);
    }
}

fn main() {
    x_beta();
    products();
    few_columns();
    many_columns();
    effects();
    stored_rows();
}
