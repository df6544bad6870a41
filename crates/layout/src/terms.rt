// Where the pieces of the work slice `terms` begin until the first log term is formed: then it is the second slice of matrices.
ghost use Rattle.std.specs.Prelude.{◌≡◌, ◌≤◌};
ghost use Rattle.layout.specs.WorkTerms.{factor_place, w_place, z_place, unsolved_place, normal_place, spare_place, terms_length};

use crate::products::{product, square};

// K, q²: (Z'WZ)Λ, then L and d.
pub fn factor_at() -> usize
    ensures { result ≡ factor_place }
{
    0
}

// w, n numbers.
pub fn w_at(q: usize) -> usize
    requires { q ≤ 32 }
    ensures { result ≡ w_place q }
{
    square(q)
}

// z, n numbers.
pub fn z_at(n: usize, q: usize) -> usize
    requires { (n ≤ 512) × (q ≤ 32) }
    ensures { result ≡ z_place n q }
{
    square(q) + n
}

// V, qp: the columns before they are solved.
pub fn unsolved_at(n: usize, q: usize) -> usize
    requires { (n ≤ 512) × (q ≤ 32) }
    ensures { result ≡ unsolved_place n q }
{
    square(q) + 2 * n
}

// N, p²: the normal matrix, then its factor.
pub fn normal_at(n: usize, p: usize, q: usize) -> usize
    requires { (n ≤ 512) × (p ≤ 16) × (q ≤ 32) }
    ensures { result ≡ normal_place n p q }
{
    square(q) + 2 * n + product(q, p)
}

// u, q numbers, before it is put to b.
pub fn spare_at(n: usize, p: usize, q: usize) -> usize
    requires { (n ≤ 512) × (p ≤ 16) × (q ≤ 32) }
    ensures { result ≡ spare_place n p q }
{
    square(q) + 2 * n + product(q, p) + square(p)
}

// The named length of the slice.
pub fn terms_length() -> usize
    ensures { result ≡ terms_length }
{
    7000
}
