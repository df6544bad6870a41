// What follows a round.
ghost use Rattle.std.specs.Prelude.{◌≡◌};
ghost use Rattle.dispersion.specs.Phi.{next_at, next_by, round_of};

use crate::phis::{close, estimate, mixed, unusable};

// Another round, unless its phi cannot be used.
#[tactic(auto, unfolding(crate::specs::Phi::next_at))]
fn next_at(phi: f64) -> Option<f64>
    ensures { result ≡ next_at phi }
{
    if unusable(phi) { None } else { Some(phi) }
}

// By whether phi has come to rest.
#[tactic(auto, unfolding(crate::specs::Phi::next_by))]
fn next_by(phi: f64, new: f64) -> Option<f64>
    ensures { result ≡ next_by phi new }
{
    if close(phi, new) {
        None
    } else {
        next_at(mixed(phi, new))
    }
}

// What follows an inner fit at phi whose deviances sum to sum, `effective` being the effective n.
#[tactic(auto, unfolding(crate::specs::Phi::round_of))]
pub fn round_of(effective: f64, phi: f64, sum: f64) -> Option<f64>
    ensures { result ≡ round_of effective phi sum }
{
    if unusable(sum) {
        None
    } else {
        next_by(phi, estimate(effective, sum))
    }
}
