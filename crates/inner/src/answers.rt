// What an inner fit answers after its quadrature.
ghost use Rattle.std.specs.Prelude.{◌≡◌};
ghost use Rattle.model.specs.Account.{points_of, SumFits};
ghost use Rattle.inner.specs.Answered.{failed_answer, stopped_answer};

use agq_rule::{deviance_by, order_by, why_by};
use model::{Account, End};
use pirls::Stopped;
use sums::Quadrature;

// What a fit with its quadrature tells beside what stands in the work slices.
#[derive(Clone, Copy)]
pub struct Answered {
    pub iterations: usize,
    pub in_second: bool,
    pub deviance_sum: f64,
    pub deviance: f64,
    pub order: usize,
    pub why: usize,
}

// What an inner fit answers: how it ended, and the work that it has done either way.
#[derive(Clone, Copy)]
pub struct InnerAnswer {
    pub outcome: Result<Answered, End>,
    pub account: Account,
}

// An inner fit without a result.
pub fn failed_answer(end: End, account: Account) -> InnerAnswer
    ensures { result ≡ failed_answer end account }
{
    InnerAnswer {
        outcome: Err(end),
        account,
    }
}

// A fit that stopped, with its quadrature: declining keeps Laplace and order 1 and tells why, and the points are counted either way.
pub fn answer_of(fit: Stopped, account: Account, quadrature: Quadrature) -> InnerAnswer
    requires { SumFits account (points_of quadrature.points) }
    ensures { result ≡ stopped_answer fit account quadrature }
{
    let integral = quadrature.answer;
    let points = Account::of_points(quadrature.points as u64);
    let account = account.plus(points);
    let answered = Answered {
        iterations: fit.iterations,
        in_second: fit.in_second,
        deviance_sum: fit.deviance_sum,
        deviance: deviance_by(integral, fit.laplace),
        order: order_by(integral),
        why: why_by(integral),
    };
    InnerAnswer {
        outcome: Ok(answered),
        account,
    }
}
