// The logarithm of a sum of exponentials.
ghost use Rattle.std.specs.Prelude.{◌≡◌, length};
ghost use Rattle.base.specs.Sum.{sum_to};
ghost use Rattle.quadrature.specs.LogSum.{max_to, exp_term, log_sum_exp};

// The largest entry by Rust's max, from -infinity: a NaN is passed over.
fn largest(xs: &[f64]) -> f64
    ensures { result ≡ max_to (length xs.now) xs.now }
{
    let mut m = -base::infinity();
    for x in xs {
        m = base::max(m, *x);
    }
    m
}

// The sum of exp(x - m).
fn exp_sum(xs: &[f64], m: f64) -> f64
    ensures { result ≡ sum_to (length xs.now) (exp_term xs.now m) }
{
    let mut sum = 0.0;
    for x in xs {
        sum += elementary::exp(*x - m);
    }
    sum
}

// ln of the sum of exp(x): with the largest m taken out no exponential overflows. Without a finite m it is -infinity.
pub fn log_sum_exp(xs: &[f64]) -> f64
    ensures { result ≡ log_sum_exp xs.now }
{
    let m = largest(xs);
    if base::is_finite(m) {
        m + elementary::ln(exp_sum(xs, m))
    } else {
        -base::infinity()
    }
}
