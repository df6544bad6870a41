// The tests of the numbers.
ghost use Rattle.std.specs.Prelude.{◌≡◌};
ghost use Rattle.table.specs.Tests.{all_finite, finite_numbers, all_in_range, none_below, start_fits};

use base::all_finite;
use family::CarriedFamily;
use model::Start;

// Whether every number of a list is finite.
fn list_ok(xs: &[f64]) -> bool
    ensures { result ≡ all_finite xs.now }
{
    all_finite(xs, xs.len())
}

// Whether every input number is finite.
pub fn numbers_ok(
    theta: &[f64],
    y: &[f64],
    weights: &[f64],
    offset: &[f64],
    x: &[f64],
    values: &[f64],
) -> bool
    ensures { result ≡ finite_numbers theta.now y.now weights.now offset.now x.now values.now }
{
    if !list_ok(theta) {
        return false;
    }
    if !list_ok(y) {
        return false;
    }
    if !list_ok(weights) {
        return false;
    }
    if !list_ok(offset) {
        return false;
    }
    if !list_ok(x) {
        return false;
    }
    list_ok(values)
}

// Whether every response lies in the family's range.
pub fn responses_ok(family: CarriedFamily, y: &[f64]) -> bool
    ensures { result ≡ all_in_range y.now family }
{
    for i in 0..y.len() {
        if !family::in_range(family, y[i]) {
            return false;
        }
    }
    true
}

// Whether no weight is below 0.
fn weights_ok(weights: &[f64]) -> bool
    ensures { result ≡ none_below weights.now }
{
    for i in 0..weights.len() {
        if weights[i] < 0.0 {
            return false;
        }
    }
    true
}

// Whether the start goes with the family and the weights.
pub fn start_ok(start: Start, family: CarriedFamily, weights: &[f64]) -> bool
    ensures { result ≡ start_fits start weights.now family }
{
    match start {
        Start::Usual => true,
        Start::Trials => match family {
            CarriedFamily::Binomial => weights_ok(weights),
            CarriedFamily::Poisson => false,
            CarriedFamily::Gaussian => false,
            CarriedFamily::Gamma => false,
        },
    }
}
