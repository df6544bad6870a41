// A try with one step, and the tries of an iteration.
ghost use Rattle.std.specs.Prelude.{◌≡◌, [], ◌∷◌};
ghost use Rattle.model.specs.Caps.{tries_cap};
ghost use Rattle.model.specs.Items.{a_try, tally};
ghost use Rattle.family.specs.Carried.{link_of};
ghost use Rattle.tries.specs.Told.{Room, trial_in, fate_of, TryDone, TriesDone};

use crate::passes::{candidate, fine_etas, finite_row, means, pwrss};
use base::is_finite;
use family::{CarriedLink, link_of};
use model::{Account, is_inverse};

// The first of the three tests that a candidate failed.
#[derive(Clone, Copy)]
pub enum TryRefusal {
    Eta,
    Mean,
    Pwrss,
}

// The try with a step: the candidate into the row at next, its means into the row at mu, each test over all observations before the next.
pub fn one_try(
    link: CarriedLink,
    n: usize,
    q: usize,
    prev: usize,
    next: usize,
    raw: usize,
    mu: usize,
    step: f64,
    u: &[f64],
    w: &[f64],
    z: &[f64],
    rows: &mut [f64],
) -> Result<f64, TryRefusal>
    requires { Room n q prev next raw mu u.now w.now z.now rows.old }
    ensures { TryDone (trial_in link n q prev raw u.now w.now z.now rows.old) next mu step rows.old
        rows.new result }
{
    candidate(n, prev, next, raw, step, rows);
    if !fine_etas(link, n, next, rows) {
        return Err(TryRefusal::Eta);
    }
    means(link, n, next, mu, rows);
    if !finite_row(n, mu, rows) {
        return Err(TryRefusal::Mean);
    }
    let end = next + n;
    let p = pwrss(n, q, u, w, z, &rows[next..end]);
    if !is_finite(p) {
        return Err(TryRefusal::Pwrss);
    }
    Ok(p)
}

// The most tries of one iteration.
fn tries_cap(link: CarriedLink) -> u64
    ensures { result ≡ tries_cap (link_of link) }
{
    if is_inverse(link_of(link)) {
        return 100;
    }
    25
}

// The account of one try: beside the tries, the one part that it belongs to.
fn of_try(t: Result<f64, TryRefusal>) -> Account
    ensures { result ≡ tally (a_try (fate_of t) ∷ []) }
{
    let mut one = Account::none();
    one.tries = 1;
    match t {
        Err(TryRefusal::Eta) => one.eta = 1,
        Err(TryRefusal::Mean) => one.mean = 1,
        Err(TryRefusal::Pwrss) => one.pwrss = 1,
        Ok(_) => one.ok = 1,
    }
    one
}

// The tries of an iteration: the whole step, and half of it after each try that is refused.
pub fn tries(
    link: CarriedLink,
    n: usize,
    q: usize,
    prev: usize,
    next: usize,
    raw: usize,
    mu: usize,
    u: &[f64],
    w: &[f64],
    z: &[f64],
    rows: &mut [f64],
) -> Result<(f64, Account), Account>
    requires { Room n q prev next raw mu u.now w.now z.now rows.old }
    ensures { TriesDone (trial_in link n q prev raw u.now w.now z.now rows.old) next mu rows.old
        rows.new result }
{
    let cap = tries_cap(link);
    let mut step = 1.0;
    let mut made = Account::none();
    while made.tries < cap {
        let t = one_try(link, n, q, prev, next, raw, mu, step, u, w, z, rows);
        made = made.plus(of_try(t));
        if let Ok(pwrss) = t {
            return Ok((pwrss, made));
        }
        step = step * 0.5;
    }
    Err(made)
}
