// Z'WZ, the weighted products of every two rows. Most rows share no observation, and their sum, over none, is +0.0: marks tell which rows need no look.
ghost use Rattle.std.specs.Prelude.{◌≡◌, ◌+◌, ◌*◌, ◌≤◌, ◌<◌, length};
ghost use Rattle.base.specs.List.{grid_to};
ghost use Rattle.stored.specs.Stored.{ztwz_at};
ghost use Rattle.stored.specs.Symmetric.{Bordered};
ghost use Rattle.stored.specs.Marks.{Between};
ghost use Rattle.stored.specs.Lent.{sparse_in, RowsIn};

use crate::lent::Sparse;
use crate::marks::{least_mark, lower_marks, mark_of};

// Entry (a, b) of Z'WZ: the two rows are merged, so that only what they store is visited.
fn both_rows(zt: &Sparse<'_>, rows: usize, n: usize, w: &[f64], a: usize, b: usize) -> f64
    requires rows { RowsIn zt.now rows n }
    requires a_lt_rows { (a < rows) × (b < rows) × (n ≤ length w.now) }
    ensures { result ≡ ztwz_at (sparse_in zt.now) n w.now a b }
{
    let i_end = zt.starts[a + 1];
    let j_end = zt.starts[b + 1];
    let mut sum = 0.0;
    let mut i = zt.starts[a];
    let mut j = zt.starts[b];
    // `while`: two cursors, of which a turn takes on the one, the other, or both.
    while i < i_end && j < j_end {
        let ci = zt.columns[i];
        let cj = zt.columns[j];
        if ci < cj {
            i += 1;
        } else if cj < ci {
            j += 1;
        } else {
            sum = sum + (zt.values[i] * zt.values[j]) * w[ci];
            i += 1;
            j += 1;
        }
    }
    sum
}

// The same for a row b up to a, where only those from `low` to `far` before the last share an observation with row a.
fn ztwz_entry(
    zt: &Sparse<'_>,
    rows: usize,
    n: usize,
    w: &[f64],
    a: usize,
    b: usize,
    low: usize,
    far: usize,
) -> f64
    requires rows { RowsIn zt.now rows n }
    requires a_lt_rows { (a < rows) × (b ≤ a) × (n ≤ length w.now) }
    requires between { Between (sparse_in zt.now) rows a low far }
    ensures { result ≡ ztwz_at (sparse_in zt.now) n w.now a b }
{
    if b < a && (b < low || rows - 1 - b < far) {
        return 0.0;
    }
    both_rows(zt, rows, n, w, a, b)
}

// Row a of Z'WZ up to the diagonal, and column a, which has the same numbers.
fn ztwz_row(
    zt: &Sparse<'_>,
    rows: usize,
    n: usize,
    w: &[f64],
    a: usize,
    low: usize,
    far: usize,
    out: &mut [f64],
)
    requires rows { RowsIn zt.now rows n }
    requires a_lt_rows { (a < rows) × (n ≤ length w.now) × (rows * rows ≤ length out.old) }
    requires between { Between (sparse_in zt.now) rows a low far }
    ensures { Bordered rows a (a + 1) (ztwz_at (sparse_in zt.now) n w.now) out.old
        out.new }
{
    let ao = base::offset(a, rows, rows);
    for b in 0..=a {
        let bo = base::offset(b, rows, rows);
        let sum = ztwz_entry(zt, rows, n, w, a, b, low, far);
        out[ao + b] = sum;
        out[bo + a] = sum;
    }
}

// Z'WZ into out, row by row. A row's number is the first mark of its observations, and the number of rows behind it the last.
pub fn ztwz(zt: &Sparse<'_>, rows: usize, n: usize, w: &[f64], out: &mut [f64])
    requires rows { RowsIn zt.now rows n }
    requires n_in_bounds { (n ≤ length w.now) × (rows * rows ≤ length out.old) }
    ensures { out.new
        ≡ grid_to rows rows (ztwz_at (sparse_in zt.now) n w.now) out.old }
{
    let mut first = [255u8; 512];
    let mut last = [255u8; 512];
    for a in 0..rows {
        let begin = zt.starts[a];
        let end = zt.starts[a + 1];
        let low = least_mark(zt.columns, begin, end, &first);
        let far = least_mark(zt.columns, begin, end, &last);
        ztwz_row(zt, rows, n, w, a, low as usize, far as usize, out);
        lower_marks(zt.columns, begin, end, mark_of(a), &mut first);
        lower_marks(zt.columns, begin, end, mark_of(rows - 1 - a), &mut last);
    }
}
