// The fit over a lent list of blocks under C's calling convention, for include/glmm.h: a slice is a pointer and a length, a record is C's struct.
// Nothing is required of any argument. The lengths of the work buffers stand here again, by the definitions of glmm_c's: an archive has the functions of one crate.
#![tactic(auto)]

ghost use Rattle.std.specs.Prelude.{◌≡◌};
ghost use Rattle.model.specs.Inputs.{inputs};
ghost use Rattle.call.specs.Call.{lent};
ghost use Rattle.layout.specs.WorkTerms.{terms_length};
ghost use Rattle.lengths.specs.Asked.{rows_asked, matrices_asked};
ghost use Rattle.blocks_coded.specs.Plain.{shown, fit_blocks_of};

use blocks::Block;
use blocks_coded::{CodedSettings, PlainAnswer};

#[unsafe(no_mangle)]
pub extern "C" fn glmm_rows_length(n: usize) -> usize
    ensures { result ≡ rows_asked n }
{
    lengths::rows_asked(n)
}

#[unsafe(no_mangle)]
pub extern "C" fn glmm_matrices_length(p: usize, q: usize) -> usize
    ensures { result ≡ matrices_asked p q }
{
    lengths::matrices_asked(p, q)
}

#[unsafe(no_mangle)]
pub extern "C" fn glmm_terms_length() -> usize
    ensures { result ≡ terms_length }
{
    layout::terms_length()
}

#[unsafe(no_mangle)]
pub extern "C" fn glmm_fit_blocks(
    coded: CodedSettings,
    blocks: &[Block],
    theta: &[f64],
    y: &[f64],
    weights: &[f64],
    offset: &[f64],
    x: &[f64],
    starts: &[usize],
    columns: &[usize],
    values: &[f64],
    beta: &mut [f64],
    se: &mut [f64],
    z: &mut [f64],
    u: &mut [f64],
    b: &mut [f64],
    mu: &mut [f64],
    eta: &mut [f64],
    residual: &mut [f64],
    v: &mut [f64],
    rows: &mut [f64],
    matrices: &mut [f64],
    terms: &mut [f64],
) -> PlainAnswer
    ensures { shown result
        (lent beta.new se.new z.new u.new b.new mu.new eta.new residual.new
        v.new rows.new matrices.new terms.new)
        ≡ fit_blocks_of coded blocks.now
        (inputs theta.now y.now weights.now offset.now x.now starts.now columns.now
        values.now)
        (lent beta.old se.old z.old u.old b.old mu.old eta.old
        residual.old v.old rows.old matrices.old terms.old) }
{
    blocks_coded::fit_coded(
        coded, blocks, theta, y, weights, offset, x, starts, columns, values, beta, se, z, u, b,
        mu, eta, residual, v, rows, matrices, terms,
    )
}
