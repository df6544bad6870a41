// The sizes that a job says, and where the numbers of a job of fitting sizes stand.
ghost use Rattle.std.specs.Prelude.{◌≡◌, ◌≤◌};
ghost use Rattle.job.specs.Format.{blocks_at};
ghost use Rattle.job.specs.Heads.{head_of};
ghost use Rattle.job.specs.Places.{CountsFew};
ghost use Rattle.job.specs.Survey.{no_shape, shape_kept, fits_by, Ranged, counts_by, places_by};

use crate::head::{Head, piece_in};
use model::Shape;

// How many numbers a job holds of each kind; weights and offset are 0 where absent.
#[derive(Clone, Copy)]
pub struct Counts {
    pub n: usize,
    pub q: usize,
    pub thetas: usize,
    pub weights: usize,
    pub offset: usize,
    pub x: usize,
}

// At which byte each list begins.
#[derive(Clone, Copy)]
pub struct Places {
    pub theta: usize,
    pub y: usize,
    pub weights: usize,
    pub offset: usize,
    pub x: usize,
    pub z: usize,
}

// The byte at which the blocks begin: the header of version 2 is a byte longer.
#[tactic(auto, unfolding(crate::specs::Format::blocks_at))]
pub fn blocks_at(s: &[u8]) -> usize
    ensures { result ≡ blocks_at s.now }
{
    if bits::field_at(s, 0, 4) == 2 { 7 } else { 6 }
}

// No blocks.
fn no_shape() -> Shape
    ensures { result ≡ no_shape }
{
    Shape {
        count: 0,
        m: [0; 8],
        k: [0; 8],
    }
}

// The blocks by value. More than 8 have no room in a shape, and are out of range anyway.
pub fn shape_in(s: &[u8], head: Head) -> Shape
    requires { head ≡ head_of s.now }
    ensures { result ≡ shape_kept s.now }
{
    let count = head.blocks;
    if 8 < count {
        return no_shape();
    }
    let first = blocks_at(s);
    let mut m = [0usize; 8];
    let mut k = [0usize; 8];
    for i in 0..count {
        let piece = piece_in(s, 8 * (first + 2 * i));
        m[i] = piece.m;
        k[i] = piece.k;
    }
    Shape { count, m, k }
}

// Whether the sizes are in range.
pub fn sizes_fit(head: Head, shape: Shape) -> bool
    ensures { result ≡ fits_by head shape }
{
    (1..=512).contains(&head.n) && (1..=16).contains(&head.p) && model::shape_ok(shape)
}

// Products of numbers in range are small.
pub fn counts_in(head: Head, shape: Shape) -> Counts
    requires { Ranged head shape }
    ensures { result ≡ counts_by head shape }
{
    let q = model::effects(shape);
    let thetas = model::theta_length(shape);
    let n = head.n;
    let weights = head.weighted * n;
    let offset = head.shifted * n;
    let x = n * head.p;
    Counts {
        n,
        q,
        thetas,
        weights,
        offset,
        x,
    }
}

// Each list begins where the one before it ends, eight bytes a number; theta begins at byte `theta`.
pub fn places_in(theta: usize, c: Counts) -> Places
    requires { (theta ≤ 100) × CountsFew c }
    ensures { result ≡ places_by theta c }
{
    let y = theta + 8 * c.thetas;
    let weights = y + 8 * c.n;
    let offset = weights + 8 * c.weights;
    let x = offset + 8 * c.offset;
    let z = x + 8 * c.x;
    Places {
        theta,
        y,
        weights,
        offset,
        x,
        z,
    }
}
