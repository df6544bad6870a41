// A candidate predictor, and what its three tests look at. The rows stand in one work slice, each n long from its place on.
ghost use Rattle.std.specs.Prelude.{◌≡◌, ◌+◌, ◌≤◌, length};
ghost use Rattle.base.specs.Sum.{all_to, finite_at, dot_of};
ghost use Rattle.base.specs.List.{build};
ghost use Rattle.base.specs.Rows.{row, Apart, Wrote};
ghost use Rattle.rule.specs.Try.{candidate_at, fine_eta_at, mean_at, square_at, add_to};

use family::{CarriedLink, link_inv};
use rule::fine_eta;

// The candidate of a step into the row at next, from the previous predictor and the raw one.
pub fn candidate(n: usize, prev: usize, next: usize, raw: usize, step: f64, rows: &mut [f64])
    requires { (prev + n ≤ length rows.old) × (next + n ≤ length rows.old) × (raw + n ≤ length rows.old) × Apart prev n next n × Apart raw n next n }
    ensures { Wrote next n (build (candidate_at (row prev n rows.old) (row raw n rows.old) step) n) rows.old rows.new }
{
    for i in 0..n {
        let p = rows[prev + i];
        let r = rows[raw + i];
        rows[next + i] = p + (r - p) * step;
    }
}

// Whether every eta of the row at next can be accepted.
pub fn fine_etas(link: CarriedLink, n: usize, next: usize, rows: &[f64]) -> bool
    requires { next + n ≤ length rows.now }
    ensures { result ≡ all_to n (fine_eta_at link (row next n rows.now)) }
{
    for i in 0..n {
        if !fine_eta(link, rows[next + i]) {
            return false;
        }
    }
    true
}

// The means of the row at next into the row at mu.
pub fn means(link: CarriedLink, n: usize, next: usize, mu: usize, rows: &mut [f64])
    requires { (next + n ≤ length rows.old) × (mu + n ≤ length rows.old) × Apart next n mu n }
    ensures { Wrote mu n (build (mean_at link (row next n rows.old)) n) rows.old rows.new }
{
    for i in 0..n {
        let eta = rows[next + i];
        rows[mu + i] = link_inv(link, eta);
    }
}

// Whether every number of a row is finite.
pub fn finite_row(n: usize, at: usize, rows: &[f64]) -> bool
    requires { at + n ≤ length rows.now }
    ensures { result ≡ all_to n (finite_at (row at n rows.now)) }
{
    let end = at + n;
    base::all_finite(&rows[at..end], n)
}

// PWRSS of a candidate c: u·u first, then each observation's square.
pub fn pwrss(n: usize, q: usize, u: &[f64], w: &[f64], z: &[f64], c: &[f64]) -> f64
    requires { (q ≤ length u.now) × (n ≤ length w.now) × (n ≤ length z.now) × (n ≤ length c.now) }
    ensures { result ≡ add_to n (dot_of q u.now u.now) (square_at w.now z.now c.now) }
{
    let mut sum = base::dot(u, u, q);
    for i in 0..n {
        let d = z[i] - c[i];
        sum = sum + w[i] * (d * d);
    }
    sum
}
