// Z'v: a vector over the observations, summed row by row.
ghost use Rattle.std.specs.Prelude.{◌≡◌, ◌≤◌, ◌<◌, length};
ghost use Rattle.base.specs.List.{fill_to};
ghost use Rattle.stored.specs.Stored.{zt_times_at};
ghost use Rattle.stored.specs.Lent.{sparse_in, RowsIn};

use crate::lent::Sparse;

// Entry a of Z'v: only the entries that the row stores are visited.
fn row_times(zt: &Sparse<'_>, rows: usize, n: usize, v: &[f64], a: usize) -> f64
    requires rows { RowsIn zt.now rows n }
    requires a_lt_rows { (a < rows) × (n ≤ length v.now) }
    ensures { result ≡ zt_times_at (sparse_in zt.now) n v.now a }
{
    let end = zt.starts[a + 1];
    let mut sum = 0.0;
    for k in zt.starts[a]..end {
        let i = zt.columns[k];
        sum = sum + zt.values[k] * v[i];
    }
    sum
}

// Z'v into out.
pub fn zt_times(zt: &Sparse<'_>, rows: usize, n: usize, v: &[f64], out: &mut [f64])
    requires rows { RowsIn zt.now rows n }
    requires n_in_bounds { (n ≤ length v.now) × (rows ≤ length out.old) }
    ensures { out.new
        ≡ fill_to rows (zt_times_at (sparse_in zt.now) n v.now) out.old }
{
    for a in 0..rows {
        out[a] = row_times(zt, rows, n, v, a);
    }
}
