// What the sums of the quadrature answer, and what every sum has.
ghost use Rattle.std.specs.Prelude.{◌≡◌, ◌^◌, ◌≤◌, length};
ghost use Rattle.base.specs.Rows.{row};
ghost use Rattle.agq_rule.specs.Term.{inverse_phi};
ghost use Rattle.sums.specs.Summed.{group_sum_of};

use base::EPSILON;
use quadrature::{Decline, Order, log_sum_exp};

// The log sum of a group, and how many points it took.
#[derive(Clone, Copy)]
pub struct GroupSum {
    pub sum: Result<f64, Decline>,
    pub points: usize,
}

// What a quadrature step answers, and how many points it took.
#[derive(Clone, Copy)]
pub struct Quadrature {
    pub answer: Result<(f64, Order), Decline>,
    pub points: usize,
}

// 1 / max(phi, E).
pub fn inverse_phi(phi: f64) -> f64
    ensures { result ≡ inverse_phi phi }
{
    1.0 / base::max(phi, EPSILON)
}

// size^k: how many points a grid of k dimensions has.
pub fn power(size: usize, k: usize) -> usize
    requires { (3 ≤ size) × (size ^ k ≤ 7000) }
    ensures { result ≡ size ^ k }
{
    let mut power: usize = 1;
    for i in 0..k {
        power = power * size;
    }
    power
}

// The log sum of the first count terms, if it is finite; each term is a point whatever becomes of the sum.
pub fn log_sum(t: &[f64], count: usize) -> GroupSum
    requires { count ≤ length t.now }
    ensures { result ≡ group_sum_of (row 0 count t.now) }
{
    let s = log_sum_exp(&t[0..count]);
    if base::is_finite(s) {
        return GroupSum {
            sum: Ok(s),
            points: count,
        };
    }
    GroupSum {
        sum: Err(Decline::Sum),
        points: count,
    }
}
