// Products with X, which has n rows of p numbers, and with the solved columns.
ghost use Rattle.std.specs.Prelude.{◌≡◌, ◌*◌, ◌≤◌, ◌<◌, length};
ghost use Rattle.base.specs.Sum.{product_at};
ghost use Rattle.base.specs.List.{fill_to};
ghost use Rattle.linear.specs.Product.{x_beta_at, column_dot, effect_at};

// Xβ into out.
pub fn x_beta(x: &[f64], beta: &[f64], n: usize, p: usize, out: &mut [f64])
    requires { (n * p ≤ length x.now) × (p ≤ length beta.now) × (n ≤ length out.old) }
    ensures { out.new ≡ fill_to n (x_beta_at x.now p beta.now) out.old }
{
    for i in 0..n {
        let o = base::offset(i, n, p);
        out[i] = base::dot_from(x, o, beta, p);
    }
}

// a[i] * b[i] into out.
pub fn products(a: &[f64], b: &[f64], n: usize, out: &mut [f64])
    requires { (n ≤ length a.now) × (n ≤ length b.now) × (n ≤ length out.old) }
    ensures { out.new ≡ fill_to n (product_at a.now b.now) out.old }
{
    for i in 0..n {
        out[i] = a[i] * b[i];
    }
}

// v times column b of X.
fn column_dot(v: &[f64], x: &[f64], n: usize, p: usize, b: usize) -> f64
    requires { (n ≤ length v.now) × (n * p ≤ length x.now) × (b < p) }
    ensures { result ≡ column_dot x.now p n v.now b }
{
    let mut sum = 0.0;
    for i in 0..n {
        let o = base::offset(i, n, p);
        sum = sum + v[i] * x[o + b];
    }
    sum
}

// u into out: wy less each solved column times its β. The p columns are q long and stand one behind the other.
pub fn effects_less(wy: &[f64], solved: &[f64], beta: &[f64], q: usize, p: usize, out: &mut [f64])
    requires { (q ≤ length wy.now) × (p * q ≤ length solved.now) × (p ≤ length beta.now) × (q ≤ length out.old) }
    ensures { out.new ≡ fill_to q (effect_at wy.now solved.now q p beta.now) out.old }
{
    for i in 0..q {
        let sum = column_dot(beta, solved, p, q, i);
        out[i] = wy[i] - sum;
    }
}
