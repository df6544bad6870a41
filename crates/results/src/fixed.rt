// v, the standard errors and the z values of β.
ghost use Rattle.std.specs.Prelude.{◌≡◌, cond, ◌*◌, ◌≤◌, ◌<◌, length};
ghost use Rattle.std.specs.Float.Ieee.{lt};
ghost use Rattle.base.specs.Number.{◌⊘◌, zero_f};
ghost use Rattle.base.specs.List.{fill_to, fill_at, grid_to};
ghost use Rattle.factor.specs.Inverse.{v_at};
ghost use Rattle.rule.specs.Results.{se_at, z_value_at};

// Row a of v, from the columns of the inverse of the normal matrix's factor.
fn v_row(columns: &[f64], p: usize, a: usize, out: &mut [f64])
    requires { (a < p) × (p * p ≤ length columns.now) × (p * p ≤ length out.old) }
    ensures { out.new ≡ fill_at (a * p) p (v_at p columns.now a) out.old }
{
    let o = base::offset(a, p, p);
    for b in 0..p {
        out[o + b] = factor::v_at(columns, p, a, b);
    }
}

// v, row by row, from the columns of the inverse of the normal matrix's factor.
pub fn v_rows(columns: &[f64], p: usize, out: &mut [f64])
    requires { (p * p ≤ length columns.now) × (p * p ≤ length out.old) }
    ensures { out.new ≡ grid_to p p (v_at p columns.now) out.old }
{
    for a in 0..p {
        v_row(columns, p, a, out);
    }
}

// The roots of v's diagonal.
pub fn standard_errors(v: &[f64], p: usize, out: &mut [f64])
    requires { (p * p ≤ length v.now) × (p ≤ length out.old) }
    ensures { out.new ≡ fill_to p (se_at p v.now) out.old }
{
    for a in 0..p {
        let o = base::offset(a, p, p);
        out[a] = root::sqrt(v[o + a]);
    }
}

// β over its standard error; a standard error that is zero or NaN gives +0.0.
fn z_value(beta: f64, se: f64) -> f64
    ensures { result ≡ cond (lt zero_f se) (beta ⊘ se) zero_f }
{
    if 0.0 < se {
        return beta / se;
    }
    0.0
}

// The z value of each β.
pub fn z_values(beta: &[f64], se: &[f64], p: usize, out: &mut [f64])
    requires { (p ≤ length beta.now) × (p ≤ length se.now) × (p ≤ length out.old) }
    ensures { out.new ≡ fill_to p (z_value_at beta.now se.now) out.old }
{
    for a in 0..p {
        out[a] = z_value(beta[a], se[a]);
    }
}
