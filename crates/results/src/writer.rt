// The one function that writes the results.
ghost use Rattle.std.specs.Prelude.{◌≡◌};
ghost use Rattle.results.specs.Nine.{nine, results_from};
ghost use Rattle.results.specs.Room.{Readable, Writable};

use crate::fixed::{standard_errors, v_rows, z_values};
use crate::responses::residuals;
use model::Shape;

// The nine results of a mode, from what the work slices hold of it: the columns of the inverse of the normal matrix's factor, β, u, the means and the predictor.
// v comes first, since the standard errors are read from it, and the z values from them.
pub fn write_results(
    shape: Shape,
    theta: &[f64],
    y: &[f64],
    n: usize,
    p: usize,
    q: usize,
    columns: &[f64],
    mode_beta: &[f64],
    mode_u: &[f64],
    mode_mu: &[f64],
    mode_eta: &[f64],
    beta: &mut [f64],
    se: &mut [f64],
    z: &mut [f64],
    u: &mut [f64],
    b: &mut [f64],
    mu: &mut [f64],
    eta: &mut [f64],
    residual: &mut [f64],
    v: &mut [f64],
)
    requires readable { Readable shape n p q theta.now y.now columns.now mode_beta.now mode_u.now mode_mu.now mode_eta.now }
    requires writable { Writable n p q beta.old se.old z.old u.old b.old mu.old eta.old residual.old v.old }
    ensures { nine beta.new se.new z.new u.new b.new mu.new eta.new residual.new
        v.new
        ≡ results_from n p shape theta.now y.now columns.now mode_beta.now mode_u.now
        mode_mu.now mode_eta.now }
{
    v_rows(columns, p, v);
    standard_errors(v, p, se);
    z_values(mode_beta, se, p, z);
    base::copy(mode_beta, beta, p);
    base::copy(mode_u, u, q);
    lambda::lambda_times(shape, theta, q, mode_u, b);
    base::copy(mode_mu, mu, n);
    base::copy(mode_eta, eta, n);
    residuals(y, mode_mu, n, residual);
}
