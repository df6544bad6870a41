// An accepted call: the fit, its results, and the work slices wiped.
ghost use Rattle.std.specs.Prelude.{◌≡◌, ◌≤◌};
ghost use Rattle.rule.specs.Run.{start_means};
ghost use Rattle.iteration.specs.Iterated.{AskedFor};
ghost use Rattle.results.specs.Room.{Writable};
ghost use Rattle.call.specs.Fit.{fit_of};
ghost use Rattle.call.specs.Call.{lent, left, fit_left};
ghost use Rattle.rule.specs.Lent.{given_in};

use crate::writing::write_fit;
use model::{Answer, Start};
use rounds::fit_in;
use rule::Given;
use wipe::wipe_work;

// The results are written where there is one, and the work slices are wiped whatever the fit came to.
pub fn fit_accepted(
    given: &Given<'_>,
    limit: usize,
    wish: usize,
    start: Start,
    beta: &mut [f64],
    se: &mut [f64],
    z: &mut [f64],
    u: &mut [f64],
    b: &mut [f64],
    mu: &mut [f64],
    eta: &mut [f64],
    residual: &mut [f64],
    v: &mut [f64],
    rows: &mut [f64],
    matrices: &mut [f64],
    terms: &mut [f64],
) -> Answer
    requires asked { AskedFor given.now rows.old matrices.old terms.old }
    requires limit_bound { limit ≤ 1000 }
    requires writable { Writable given.now.design.n given.now.design.p given.now.design.q beta.old se.old z.old u.old b.old mu.old eta.old residual.old v.old }
    ensures { left result
        (lent beta.new se.new z.new u.new b.new mu.new eta.new residual.new
        v.new rows.new matrices.new terms.new)
        ≡ fit_left given.now.design.n given.now.design.p given.now.design.q
        (given_in given.now)
        (fit_of
        (given_in given.now)
        (start_means start
        (given_in given.now)) wish limit)
        (lent beta.old se.old z.old u.old b.old mu.old eta.old
        residual.old v.old rows.old matrices.old terms.old) }
{
    let design = &given.design;
    let f = fit_in(given, limit, wish, start, rows, matrices, terms);
    write_fit(
        f.fitted,
        design.shape,
        design.theta,
        given.y,
        design.n,
        design.p,
        design.q,
        f.in_second,
        rows,
        matrices,
        beta,
        se,
        z,
        u,
        b,
        mu,
        eta,
        residual,
        v,
    );
    wipe_work(design.n, design.p, design.q, rows, matrices, terms);
    f.answer
}
