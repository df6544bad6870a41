// An inner fit begins from the starting means, whatever came before it.
ghost use Rattle.std.specs.Prelude.{◌≤◌};
ghost use Rattle.rule.specs.Run.{start_means};
ghost use Rattle.iteration.specs.Iterated.{AskedFor};
ghost use Rattle.inner.specs.Answered.{AnswerLeft};
ghost use Rattle.rule.specs.Lent.{given_in};

use inner::{InnerAnswer, inner_answer};
use model::Start;
use rule::Given;
use working::start_means;

// The starting means into their row, then the inner fit from there.
pub fn inner_at(
    given: &Given<'_>,
    phi: f64,
    limit: usize,
    wish: usize,
    start: Start,
    r: &mut [f64],
    m: &mut [f64],
    t: &mut [f64],
) -> InnerAnswer
    requires asked { AskedFor given.now r.old m.old t.old }
    requires limit_bound { limit ≤ 1000 }
    ensures { AnswerLeft
        (given_in given.now) wish phi limit
        (start_means start
        (given_in given.now)) r.old r.new m.old
        m.new t.old t.new result }
{
    let design = &given.design;
    let mu = layout::mu_row(design.n);
    let raw = layout::raw_row(design.n);
    start_means(
        start,
        given.family,
        given.y,
        given.weights,
        design.n,
        &mut r[mu..raw],
    );
    inner_answer(given, phi, limit, wish, r, m, t)
}
