// The inner fit with its quadrature.
ghost use Rattle.std.specs.Prelude.{◌≤◌};
ghost use Rattle.base.specs.Rows.{row};
ghost use Rattle.layout.specs.WorkRows.{mu_row};
ghost use Rattle.iteration.specs.Iterated.{AskedFor};
ghost use Rattle.inner.specs.Answered.{AnswerLeft};
ghost use Rattle.rule.specs.Lent.{given_in};

use crate::answers::{InnerAnswer, answer_of, failed_answer};
use crate::quadratures::quadrature_at;
use pirls::inner_fit;
use rule::Given;

// The inner fit from the means that stand in their row; where it stops, with its quadrature.
pub fn inner_answer(
    given: &Given<'_>,
    phi: f64,
    limit: usize,
    wish: usize,
    r: &mut [f64],
    m: &mut [f64],
    t: &mut [f64],
) -> InnerAnswer
    requires asked { AskedFor given.now r.old m.old t.old }
    requires limit_bound { limit ≤ 1000 }
    ensures { AnswerLeft
        (given_in given.now) wish phi limit (row (mu_row given.now.design.n) given.now.design.n r.old) r.old
        r.new m.old m.new t.old t.new result }
{
    let fit = inner_fit(given, phi, limit, r, m, t);
    match fit.outcome {
        Err(end) => failed_answer(end, fit.account),
        Ok(stopped) => {
            let quadrature = quadrature_at(given, wish, phi, stopped.fit, r, m, t);
            answer_of(stopped, fit.account, quadrature)
        }
    }
}
