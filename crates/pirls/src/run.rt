// The inner fit: iterations until PWRSS comes to rest.
ghost use Rattle.std.specs.Prelude.{◌≡◌, ◌≤◌};
ghost use Rattle.base.specs.Rows.{row};
ghost use Rattle.layout.specs.WorkRows.{mu_row};
ghost use Rattle.model.specs.Account.{◌⊞◌, one_solve, SumFits};
ghost use Rattle.iteration.specs.Iterated.{AskedFor};
ghost use Rattle.pirls.specs.Inner.{failed_fit, stopped_fit, InnerLeft};
ghost use Rattle.rule.specs.Lent.{given_in};

use iteration::{Iteration, iterate};
use layout::mu_row;
use model::{Account, End};
use rule::{Given, stops};
use stages::{AtStop, stop};
use working::start_eta;

// What a fit that came to rest tells beside what stands in the work slices.
#[derive(Clone, Copy)]
pub struct Stopped {
    pub iterations: usize,
    pub in_second: bool,
    pub deviance_sum: f64,
    pub fit: f64,
    pub laplace: f64,
}

// What an inner fit answers: how it ended, and the work that it has done either way.
#[derive(Clone, Copy)]
pub struct InnerFit {
    pub outcome: Result<Stopped, End>,
    pub account: Account,
}

// An inner fit without a result.
fn failed_fit(end: End, account: Account) -> InnerFit
    ensures { result ≡ failed_fit end account }
{
    InnerFit {
        outcome: Err(end),
        account,
    }
}

// An inner fit that came to rest: what the stop tells.
fn stopped_fit(s: AtStop, iterations: usize, in_second: bool, account: Account) -> InnerFit
    ensures { result ≡ stopped_fit s iterations in_second account }
{
    let stopped = Stopped {
        iterations,
        in_second,
        deviance_sum: s.deviance_sum,
        fit: s.fit,
        laplace: s.laplace,
    };
    InnerFit {
        outcome: Ok(stopped),
        account,
    }
}

// One solve more, and the tries that it made.
fn with_solve(account: Account, made: Account) -> Account
    requires { SumFits account (one_solve ⊞ made) }
    ensures { result ≡ account ⊞ (one_solve ⊞ made) }
{
    account.plus(Account::one_solve().plus(made))
}

// The inner fit from the means that stand in their row; from the first move on they are those of the predictor.
pub fn inner_fit(
    given: &Given<'_>,
    phi: f64,
    limit: usize,
    r: &mut [f64],
    m: &mut [f64],
    t: &mut [f64],
) -> InnerFit
    requires asked { AskedFor given.now r.old m.old t.old }
    requires limit_bound { limit ≤ 1000 }
    ensures { InnerLeft
        (given_in given.now) phi limit (row (mu_row given.now.design.n) given.now.design.n r.old) r.old
        r.new m.old m.new t.old t.new result }
{
    let design = &given.design;
    start_eta(given.link, design.offset, design.n, mu_row(design.n), 0, r);
    let mut old = base::MAX;
    let mut in_second = false;
    let mut account = Account::one_fit();
    for k in 0..limit {
        match iterate(given, 0 < k, phi, in_second, r, m, t) {
            Iteration::Unsolvable(e) => return failed_fit(e, account),
            Iteration::Stuck(made) => return failed_fit(End::NoStep, with_solve(account, made)),
            Iteration::Moved(pwrss, made) => {
                account = with_solve(account, made);
                in_second = !in_second;
                if stops(old, pwrss) {
                    let s = stop(
                        given.family,
                        given.y,
                        given.weights,
                        design.n,
                        design.p,
                        design.q,
                        r,
                        m,
                        t,
                    );
                    return stopped_fit(s, k + 1, in_second, account);
                }
                old = pwrss;
            }
        }
    }
    failed_fit(End::NoStop, account)
}
