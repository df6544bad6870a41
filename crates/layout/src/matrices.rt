// Where the pieces of the work slice `matrices` begin.
ghost use Rattle.std.specs.Prelude.{◌≡◌, ◌≤◌};
ghost use Rattle.layout.specs.Products.{Small};
ghost use Rattle.layout.specs.WorkMatrices.{inverse_place, solved_place, root_inverse_place, wy_place, u_place, b_place, trial_u_place, beta_place, beta_end, matrices_length};

use crate::products::{product, square};

// I, q²: the inverse of a block or of A, then its Cholesky factor.
pub fn inverse_at(q: usize) -> usize
    requires { q ≤ 32 }
    ensures { result ≡ inverse_place q }
{
    square(q)
}

// W, qp: the solved columns.
pub fn solved_at(q: usize) -> usize
    requires { q ≤ 32 }
    ensures { result ≡ solved_place q }
{
    2 * square(q)
}

// P, p²: the inverse of the normal matrix's Cholesky factor.
pub fn root_inverse_at(p: usize, q: usize) -> usize
    requires { (p ≤ 16) × (q ≤ 32) }
    ensures { result ≡ root_inverse_place p q }
{
    2 * square(q) + product(q, p)
}

// Where the vectors begin, after the four matrices.
fn vectors_at(p: usize, q: usize) -> usize
    requires { (p ≤ 16) × (q ≤ 32) }
    ensures { Small (wy_place p q) 3584 result }
{
    2 * square(q) + product(q, p) + square(p)
}

// wy, the right side Λ'(Z'(w·(z - offset))) solved with A's factor, the first of six vectors of q numbers.
pub fn wy_at(p: usize, q: usize) -> usize
    requires { (p ≤ 16) × (q ≤ 32) }
    ensures { result ≡ wy_place p q }
{
    vectors_at(p, q)
}

// u.
pub fn u_at(p: usize, q: usize) -> usize
    requires { (p ≤ 16) × (q ≤ 32) }
    ensures { result ≡ u_place p q }
{
    vectors_at(p, q) + q
}

// b.
pub fn b_at(p: usize, q: usize) -> usize
    requires { (p ≤ 16) × (q ≤ 32) }
    ensures { result ≡ b_place p q }
{
    vectors_at(p, q) + 2 * q
}

// The trial u; the trial b and z of a quadrature point follow it, q numbers each.
pub fn trial_u_at(p: usize, q: usize) -> usize
    requires { (p ≤ 16) × (q ≤ 32) }
    ensures { result ≡ trial_u_place p q }
{
    vectors_at(p, q) + 3 * q
}

// β, p numbers.
pub fn beta_at(p: usize, q: usize) -> usize
    requires { (p ≤ 16) × (q ≤ 32) }
    ensures { result ≡ beta_place p q }
{
    vectors_at(p, q) + 6 * q
}

// Where β ends; nothing stands behind it.
pub fn beta_end(p: usize, q: usize) -> usize
    requires { (p ≤ 16) × (q ≤ 32) }
    ensures { result ≡ beta_end p q }
{
    vectors_at(p, q) + 6 * q + p
}

// The named length of the slice.
pub fn matrices_length(p: usize, q: usize) -> usize
    requires { (p ≤ 16) × (q ≤ 32) }
    ensures { result ≡ matrices_length p q }
{
    3 * square(q) + 4 * square(p) + 2 * product(q, p) + 12 * (q + p)
}
