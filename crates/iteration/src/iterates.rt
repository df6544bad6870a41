// One iteration: weights, solve, tries.
ghost use Rattle.std.specs.Prelude.{◌≡◌, true, not};
ghost use Rattle.base.specs.Rows.{row};
ghost use Rattle.layout.specs.WorkRows.{mu_row};
ghost use Rattle.stages.specs.Held.{eta_row};
ghost use Rattle.working.specs.Met.{Met};
ghost use Rattle.iteration.specs.Iterated.{IterationLeft, AskedFor};
ghost use Rattle.rule.specs.Lent.{given_in};

use crate::solving::solve_into;
use crate::steps::step;
use model::{Account, End};
use rule::Given;
use stages::weigh;

// What became of an iteration: no solve, with its end; no step accepted, with the account of the tries; or moved, with PWRSS and that account.
#[derive(Clone, Copy)]
pub enum Iteration {
    Unsolvable(End),
    Stuck(Account),
    Moved(f64, Account),
}

// An iteration from the row that holds the predictor; an accepted predictor stands in the other row. met says that the means are the predictor's.
pub fn iterate(
    given: &Given<'_>,
    met: bool,
    phi: f64,
    in_second: bool,
    r: &mut [f64],
    m: &mut [f64],
    t: &mut [f64],
) -> Iteration
    requires asked { AskedFor given.now r.old m.old t.old }
    requires met { met ≡ true → Met given.now.link given.now.design.n (row (eta_row given.now.design.n in_second) given.now.design.n r.old) (row (mu_row given.now.design.n) given.now.design.n r.old) }
    ensures { IterationLeft
        (given_in given.now) phi (row (eta_row given.now.design.n in_second) given.now.design.n r.old)
        (row (mu_row given.now.design.n) given.now.design.n r.old) (eta_row given.now.design.n (not in_second)) r.old r.new m.old m.new t.old
        t.new result }
{
    let design = &given.design;
    weigh(
        given.family,
        given.link,
        met,
        phi,
        given.y,
        given.weights,
        design.offset,
        design.n,
        design.q,
        in_second,
        r,
        t,
    );
    let solving = solve_into(design, r, m, t);
    if let Err(end) = solving {
        return Iteration::Unsolvable(end);
    }
    match step(given.link, design.n, design.p, design.q, in_second, m, t, r) {
        Ok((pwrss, made)) => Iteration::Moved(pwrss, made),
        Err(made) => Iteration::Stuck(made),
    }
}
