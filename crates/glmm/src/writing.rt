// The results of a fit, from where the work slices hold its parts.
ghost use Rattle.std.specs.Prelude.{◌≡◌, cond, ◌*◌};
ghost use Rattle.base.specs.Rows.{row};
ghost use Rattle.layout.specs.WorkMatrices.{root_inverse_place, u_place, beta_place};
ghost use Rattle.layout.specs.WorkRows.{mu_row};
ghost use Rattle.results.specs.Nine.{nine, results_from};
ghost use Rattle.results.specs.Room.{Writable};
ghost use Rattle.stages.specs.Held.{eta_row};
ghost use Rattle.glmm.specs.Standing.{Standing};

use model::Shape;
use results::write_results;
use stages::holder;

// The nine results, where the fit has any; the predictor stands in the second of its two rows or in the first.
pub fn write_fit(
    fitted: bool,
    shape: Shape,
    theta: &[f64],
    y: &[f64],
    n: usize,
    p: usize,
    q: usize,
    in_second: bool,
    r: &[f64],
    m: &[f64],
    beta: &mut [f64],
    se: &mut [f64],
    z: &mut [f64],
    u: &mut [f64],
    b: &mut [f64],
    mu: &mut [f64],
    eta: &mut [f64],
    residual: &mut [f64],
    v: &mut [f64],
)
    requires standing { Standing shape n p q theta.now y.now r.now m.now }
    requires writable { Writable n p q beta.old se.old z.old u.old b.old mu.old eta.old residual.old v.old }
    ensures { nine beta.new se.new z.new u.new b.new mu.new eta.new residual.new
        v.new
        ≡ cond fitted
        (results_from n p shape theta.now y.now (row (root_inverse_place p q) (p * p) m.now)
        (row (beta_place p q) p m.now) (row (u_place p q) q m.now) (row (mu_row n) n r.now)
        (row (eta_row n in_second) n r.now))
        (nine beta.old se.old z.old u.old b.old mu.old eta.old
        residual.old v.old) }
{
    if !fitted {
        return;
    }
    let root = layout::root_inverse_at(p, q);
    let wy = layout::wy_at(p, q);
    let fixed = layout::beta_at(p, q);
    let fixed_end = layout::beta_end(p, q);
    let effects = layout::u_at(p, q);
    let next = layout::b_at(p, q);
    let second = layout::second_eta_row(n);
    let means = layout::mu_row(n);
    let raw = layout::raw_row(n);
    let predictor = holder(&r[0..second], &r[second..means], n, in_second);
    write_results(
        shape,
        theta,
        y,
        n,
        p,
        q,
        &m[root..wy],
        &m[fixed..fixed_end],
        &m[effects..next],
        &r[means..raw],
        predictor,
        beta,
        se,
        z,
        u,
        b,
        mu,
        eta,
        residual,
        v,
    );
}
