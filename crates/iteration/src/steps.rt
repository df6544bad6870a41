// The tries of an iteration, where the layout has what they look at.
ghost use Rattle.std.specs.Prelude.{◌≡◌, not, ◌≤◌};
ghost use Rattle.base.specs.Rows.{row};
ghost use Rattle.layout.specs.Layout.{WorkRoom};
ghost use Rattle.layout.specs.WorkRows.{mu_row, raw_row};
ghost use Rattle.layout.specs.WorkMatrices.{u_place};
ghost use Rattle.layout.specs.WorkTerms.{w_place, z_place};
ghost use Rattle.stages.specs.Held.{eta_row};
ghost use Rattle.tries.specs.Told.{trial_in, TriesDone};

use family::CarriedLink;
use layout::{b_at, mu_row, raw_row, second_eta_row, u_at, unsolved_at, w_at, z_at};
use model::Account;
use tries::tries;

// Where the row that holds the predictor begins.
pub fn eta_row(n: usize, in_second: bool) -> usize
    requires { n ≤ 512 }
    ensures { result ≡ eta_row n in_second }
{
    if in_second {
        return second_eta_row(n);
    }
    0
}

// From the row that holds the predictor to the other one.
pub fn step(
    link: CarriedLink,
    n: usize,
    p: usize,
    q: usize,
    in_second: bool,
    m: &[f64],
    t: &[f64],
    r: &mut [f64],
) -> Result<(f64, Account), Account>
    requires { WorkRoom n p q r.old m.now t.now }
    ensures { TriesDone
        (trial_in link n q (eta_row n in_second) (raw_row n) (row (u_place p q) q m.now) (row (w_place q) n t.now)
        (row (z_place n q) n t.now) r.old) (eta_row n (not in_second)) (mu_row n) r.old r.new result }
{
    let prev = eta_row(n, in_second);
    let next = eta_row(n, !in_second);
    let raw = raw_row(n);
    let mu = mu_row(n);
    let u = u_at(p, q);
    let b = b_at(p, q);
    let w = w_at(q);
    let z = z_at(n, q);
    let unsolved = unsolved_at(n, q);
    tries(
        link,
        n,
        q,
        prev,
        next,
        raw,
        mu,
        &m[u..b],
        &t[w..z],
        &t[z..unsolved],
        r,
    )
}
