// The rounds of the dispersion loop, and the one inner fit of a family without dispersion.
ghost use Rattle.std.specs.Prelude.{◌≤◌};
ghost use Rattle.rule.specs.Run.{start_means};
ghost use Rattle.iteration.specs.Iterated.{AskedFor};
ghost use Rattle.dispersion.specs.Phi.{effective_n};
ghost use Rattle.dispersion.specs.Rounds.{dispersion_of, fixed_of};
ghost use Rattle.call.specs.Fit.{sum_of, inner_at, fit_of};
ghost use Rattle.rounds.specs.Fitted.{FitLeft};
ghost use Rattle.rule.specs.Lent.{given_in};

use crate::starting::inner_at;
use crate::totals::{Fit, fit_from, round_after};
use dispersion::effective_n;
use family::uses_dispersion;
use model::{Account, Start};
use rule::Given;

// At most 240 rounds, in which phi is found, then one more at the phi that is left.
fn dispersed_fit(
    given: &Given<'_>,
    limit: usize,
    wish: usize,
    start: Start,
    r: &mut [f64],
    m: &mut [f64],
    t: &mut [f64],
) -> Fit
    requires asked { AskedFor given.now r.old m.old t.old }
    requires limit_bound { limit ≤ 1000 }
    ensures { FitLeft
        (given_in given.now)
        (dispersion_of (effective_n given.now.design.n given.now.weights.now) sum_of
        (inner_at
        (given_in given.now)
        (start_means start
        (given_in given.now)) wish limit)) r.old r.new m.old
        m.new t.old t.new result }
{
    let design = &given.design;
    let effective = effective_n(given.weights, design.n);
    let mut phi = 1.0;
    let mut account = Account::none();
    for _k in 0..240_usize {
        let a = inner_at(given, phi, limit, wish, start, r, m, t);
        account = account.plus(a.account);
        match round_after(a, effective, phi) {
            None => return fit_from(a, phi, true, account),
            Some(next) => phi = next,
        }
    }
    let a = inner_at(given, phi, limit, wish, start, r, m, t);
    account = account.plus(a.account);
    fit_from(a, phi, false, account)
}

// One inner fit at phi 1.
fn fixed_fit(
    given: &Given<'_>,
    limit: usize,
    wish: usize,
    start: Start,
    r: &mut [f64],
    m: &mut [f64],
    t: &mut [f64],
) -> Fit
    requires asked { AskedFor given.now r.old m.old t.old }
    requires limit_bound { limit ≤ 1000 }
    ensures { FitLeft
        (given_in given.now)
        (fixed_of
        (inner_at
        (given_in given.now)
        (start_means start
        (given_in given.now)) wish limit)) r.old r.new m.old
        m.new t.old t.new result }
{
    let a = inner_at(given, 1.0, limit, wish, start, r, m, t);
    fit_from(a, 1.0, true, a.account)
}

// The fit of an accepted call.
pub fn fit_in(
    given: &Given<'_>,
    limit: usize,
    wish: usize,
    start: Start,
    r: &mut [f64],
    m: &mut [f64],
    t: &mut [f64],
) -> Fit
    requires asked { AskedFor given.now r.old m.old t.old }
    requires limit_bound { limit ≤ 1000 }
    ensures { FitLeft
        (given_in given.now)
        (fit_of
        (given_in given.now)
        (start_means start
        (given_in given.now)) wish limit) r.old r.new m.old
        m.new t.old t.new result }
{
    if uses_dispersion(given.family) {
        return dispersed_fit(given, limit, wish, start, r, m, t);
    }
    fixed_fit(given, limit, wish, start, r, m, t)
}
