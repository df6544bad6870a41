// The sizes of a call: the blocks of random effects by number, and the settings; whether they are in range.
ghost use Rattle.std.specs.Prelude.{◌≡◌, true, ◌&&◌, ◌≤◌, ◌<◌};
ghost use Rattle.model.specs.Shape.{within, first_effect, first_theta, effects_of, theta_length, good_shape};
ghost use Rattle.model.specs.Settings.{good_limit, good_sizes};

use crate::names::{Family, Link, Start};

// The blocks of random effects: block i has m[i] groups of k[i] effects. Only the first `count` of each row are looked at.
#[derive(Clone, Copy)]
pub struct Shape {
    pub count: usize,
    pub m: [usize; 8],
    pub k: [usize; 8],
}

// The plain numbers of a call: n observations, p columns of X, how many rows and entries Z' has, and how the starting means are made.
#[derive(Clone, Copy)]
pub struct Settings {
    pub family: Family,
    pub link: Link,
    pub n_agq: usize,
    pub limit: Option<usize>,
    pub n: usize,
    pub p: usize,
    pub rows: usize,
    pub entries: usize,
    pub start: Start,
}

// A block of a good shape has at most 32 groups too, since q is at most 32: so the product m·k stays small whatever is given.
fn block_ok(m: usize, k: usize) -> bool
    ensures { result ≡ (within 1 8 k && within 1 32 m) }
{
    (1..=8).contains(&k) && (1..=32).contains(&m)
}

// Each block is tested before its product is formed. At least one effect a block is there, so q needs no test from below.
pub fn shape_ok(shape: Shape) -> bool
    ensures { result ≡ good_shape shape }
{
    let count = shape.count;
    if !(1..=8).contains(&count) {
        return false;
    }
    let mut q = 0;
    for i in 0..count {
        let m = shape.m[i];
        let k = shape.k[i];
        if !block_ok(m, k) {
            return false;
        }
        q += m * k;
    }
    q <= 32
}

// The effects of the blocks before `block`, which is where its own begin.
pub fn first_effect(shape: Shape, block: usize) -> usize
    requires { (good_shape shape ≡ true) × (block ≤ shape.count) }
    ensures { result ≡ first_effect shape block }
{
    let mut q = 0;
    for i in 0..block {
        let m = shape.m[i];
        let k = shape.k[i];
        q += m * k;
    }
    q
}

// The numbers of theta of the blocks before `block`, which is where its own begin.
pub fn first_theta(shape: Shape, block: usize) -> usize
    requires { (good_shape shape ≡ true) × (block ≤ shape.count) }
    ensures { result ≡ first_theta shape block }
{
    let mut t = 0;
    for i in 0..block {
        let k = shape.k[i];
        t += k * (k + 1) / 2;
    }
    t
}

// q, which is where a next block's effects would begin.
pub fn effects(shape: Shape) -> usize
    requires { good_shape shape ≡ true }
    ensures { result ≡ effects_of shape }
{
    let count = shape.count;
    first_effect(shape, count)
}

// The length of theta, which is where a next block's numbers would begin.
pub fn theta_length(shape: Shape) -> usize
    requires { good_shape shape ≡ true }
    ensures { result ≡ theta_length shape }
{
    let count = shape.count;
    first_theta(shape, count)
}

// A limit that is not given is never too large.
#[tactic(auto, unfolding(crate::specs::Settings::good_limit))]
fn limit_ok(limit: Option<usize>) -> bool
    ensures { result ≡ good_limit limit }
{
    limit.is_none_or(|l| l <= 1000)
}

// Number 1 of the table is given where this is false.
#[tactic(auto, unfolding(crate::specs::Settings::good_sizes))]
pub fn sizes_ok(settings: Settings, shape: Shape) -> bool
    ensures { result ≡ good_sizes settings shape }
{
    (1..=512).contains(&settings.n)
        && (1..=16).contains(&settings.p)
        && shape_ok(shape)
        && effects(shape) == settings.rows
        && settings.entries <= 8192
        && limit_ok(settings.limit)
}
