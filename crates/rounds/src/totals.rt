// What is made of an inner fit: what follows it, and the answer where it is the last.
ghost use Rattle.std.specs.Prelude.{◌≡◌};
ghost use Rattle.rounds.specs.Totals.{round_after, fit_from};

use dispersion::round_of;
use inner::InnerAnswer;
use model::{Account, Answer};

// What a fit answers, whether it has a result, and in which row its predictor stands then.
#[derive(Clone, Copy)]
pub struct Fit {
    pub fitted: bool,
    pub in_second: bool,
    pub answer: Answer,
}

// An inner fit without a result is the last.
pub fn round_after(a: InnerAnswer, effective: f64, phi: f64) -> Option<f64>
    ensures { result ≡ round_after a.outcome effective phi }
{
    match a.outcome {
        Ok(answered) => round_of(effective, phi, answered.deviance_sum),
        Err(_) => None,
    }
}

// The fit whose last inner fit this is.
pub fn fit_from(a: InnerAnswer, phi: f64, converged: bool, account: Account) -> Fit
    ensures { result ≡ fit_from a.outcome phi converged account }
{
    match a.outcome {
        Ok(x) => Fit {
            fitted: true,
            in_second: x.in_second,
            answer: Answer::fitted(
                x.deviance,
                phi,
                x.order,
                x.why,
                converged,
                x.iterations,
                account,
            ),
        },
        Err(end) => Fit {
            fitted: false,
            in_second: false,
            answer: Answer::unfitted(end, account),
        },
    }
}
