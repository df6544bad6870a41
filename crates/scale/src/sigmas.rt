// One effect a group: sigma, from the diagonal of A.
ghost use Rattle.std.specs.Prelude.{◌≡◌, ◌*◌, ◌≤◌, ◌<◌, length};
ghost use Rattle.base.specs.List.{at};
ghost use Rattle.base.specs.Rows.{row};
ghost use Rattle.layout.specs.WorkMatrices.{system_place};
ghost use Rattle.scale.specs.Tells.{one_scale_of};

use base::EPSILON;
use quadrature::Decline;

// From one diagonal entry: the root, then its reciprocal.
fn sigma_of(entry: f64) -> Result<f64, Decline>
    ensures { result ≡ one_scale_of entry }
{
    if entry <= EPSILON || !base::is_finite(entry) {
        return Err(Decline::Diagonal);
    }
    Ok(1.0 / root::sqrt(entry))
}

// Group g, whose diagonal entry of A stands in m.
pub fn one_sigma(q: usize, g: usize, m: &[f64]) -> Result<f64, Decline>
    requires { (q ≤ 32) × (g < q) × (q * q ≤ length m.now) }
    ensures { result ≡ one_scale_of (at q (row system_place (q * q) m.now) g g) }
{
    let o = base::offset(g, q, q);
    let entry = m[o + g];
    sigma_of(entry)
}
