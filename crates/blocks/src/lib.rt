// The blocks of random effects as a list, and the fit that takes them so. A list is turned into a shape first: everything else works with numbers by value.
#![tactic(auto)]

ghost use Rattle.std.specs.Prelude.{◌≡◌, ◌<◌, get_or};
ghost use Rattle.model.specs.Inputs.{inputs};
ghost use Rattle.call.specs.Call.{lent, left, call_of};
ghost use Rattle.blocks.specs.Blocks.{no_block, blank_shape, put_at, shape_of};

use model::{Answer, Inputs, Settings, Shape};

// m groups with k effects each, laid out as C's struct for `blocks_c`.
#[repr(C)]
#[derive(Clone, Copy)]
pub struct Block {
    pub m: usize,
    pub k: usize,
}

// A place past the end has the block of no group and no effect: a caller needs no bound.
pub fn block_or(blocks: &[Block], i: usize) -> Block
    ensures { result ≡ get_or blocks.now i no_block }
{
    if i < blocks.len() {
        return blocks[i];
    }
    Block { m: 0, k: 0 }
}

// A shape of `count` blocks, with no numbers yet.
fn blank(count: usize) -> Shape
    ensures { result ≡ blank_shape count }
{
    let m = [0usize; 8];
    let k = [0usize; 8];
    Shape { count, m, k }
}

// The shape with a block's numbers at place i.
fn put(shape: Shape, i: usize, block: Block) -> Shape
    requires { i < 8 }
    ensures { result ≡ put_at shape i block }
{
    let mut filled = shape;
    filled.m[i] = block.m;
    filled.k[i] = block.k;
    filled
}

// Refuses nothing: the count is the list's own, whatever it is, and the table refuses a shape of none or of more than eight.
pub fn shape_of(blocks: &[Block]) -> Shape
    ensures { result ≡ shape_of blocks.now }
{
    let mut shape = blank(blocks.len());
    for i in 0..8 {
        shape = put(shape, i, block_or(blocks, i));
    }
    shape
}

// One call of the fit: `glmm::fit` of the list's shape.
pub fn fit_blocks(
    settings: Settings,
    blocks: &[Block],
    theta: &[f64],
    y: &[f64],
    weights: &[f64],
    offset: &[f64],
    x: &[f64],
    starts: &[usize],
    columns: &[usize],
    values: &[f64],
    beta: &mut [f64],
    se: &mut [f64],
    z: &mut [f64],
    u: &mut [f64],
    b: &mut [f64],
    mu: &mut [f64],
    eta: &mut [f64],
    residual: &mut [f64],
    v: &mut [f64],
    rows: &mut [f64],
    matrices: &mut [f64],
    terms: &mut [f64],
) -> Answer
    ensures { left result
        (lent beta.new se.new z.new u.new b.new mu.new eta.new residual.new
        v.new rows.new matrices.new terms.new)
        ≡ call_of settings (shape_of blocks.now)
        (inputs theta.now y.now weights.now offset.now x.now starts.now columns.now
        values.now)
        (lent beta.old se.old z.old u.old b.old mu.old eta.old
        residual.old v.old rows.old matrices.old terms.old) }
{
    let shape = shape_of(blocks);
    glmm::fit(
        settings,
        shape,
        &Inputs {
            theta,
            y,
            weights,
            offset,
            x,
            starts,
            columns,
            values,
        },
        beta,
        se,
        z,
        u,
        b,
        mu,
        eta,
        residual,
        v,
        rows,
        matrices,
        terms,
    )
}
