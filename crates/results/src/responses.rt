// What is left of the responses.
ghost use Rattle.std.specs.Prelude.{◌≡◌, ◌≤◌, length};
ghost use Rattle.base.specs.List.{fill_to};
ghost use Rattle.rule.specs.Results.{residual_at};

// Each response less its mean.
pub fn residuals(y: &[f64], mu: &[f64], n: usize, out: &mut [f64])
    requires { (n ≤ length y.now) × (n ≤ length mu.now) × (n ≤ length out.old) }
    ensures { out.new ≡ fill_to n (residual_at y.now mu.now) out.old }
{
    for i in 0..n {
        out[i] = y[i] - mu[i];
    }
}
