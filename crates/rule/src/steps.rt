// The steps of the rule for one observation, and its stop test.
ghost use Rattle.std.specs.Prelude.{◌≡◌};
ghost use Rattle.rule.specs.Working.{working_weight, divisor, working_response};
ghost use Rattle.rule.specs.Try.{fine_eta};
ghost use Rattle.rule.specs.Stop.{stops};

use base::{EPSILON, abs, is_finite, is_sign_negative, max};
use family::CarriedLink;

// The working weight, from the derivative as it is.
#[tactic(auto, unfolding(crate::specs::Working::working_weight))]
pub fn working_weight(phi: f64, wt: f64, me: f64, v: f64) -> f64
    ensures { result ≡ working_weight phi wt me v }
{
    let scale = max(phi, EPSILON) * max(v, EPSILON);
    max(wt * me * me / scale, EPSILON)
}

// What the working response divides by: a derivative near zero becomes E with its sign.
#[tactic(auto, unfolding(crate::specs::Working::divisor))]
pub fn divisor(me: f64) -> f64
    ensures { result ≡ divisor me }
{
    if abs(me) < EPSILON {
        if is_sign_negative(me) {
            -EPSILON
        } else {
            EPSILON
        }
    } else {
        me
    }
}

// The working response.
#[tactic(auto, unfolding(crate::specs::Working::working_response))]
pub fn working_response(eta: f64, y: f64, mu: f64, me: f64) -> f64
    ensures { result ≡ working_response eta y mu me }
{
    eta + (y - mu) / divisor(me)
}

// Whether a predictor can be accepted: with the inverse link it must be above E.
#[tactic(auto, unfolding(crate::specs::Try::fine_eta))]
pub fn fine_eta(link: CarriedLink, eta: f64) -> bool
    ensures { result ≡ fine_eta link eta }
{
    is_finite(eta) && (!model::is_inverse(family::link_of(link)) || EPSILON < eta)
}

// The stop test, of the PWRSS before and now.
#[tactic(auto, unfolding(crate::specs::Stop::stops))]
pub fn stops(old: f64, new: f64) -> bool
    ensures { result ≡ stops old new }
{
    abs(old - new) / (new + 0.1) < 1e-8
}
