// Zb: a vector over the rows, added up at the observations.
ghost use Rattle.std.specs.Prelude.{◌≡◌, ◌≤◌, ◌<◌, length};
ghost use Rattle.base.specs.List.{fill_to};
ghost use Rattle.stored.specs.Stored.{z_times_at, added_at};
ghost use Rattle.stored.specs.Lent.{sparse_in, RowsIn};

use crate::lent::Sparse;

// What row a adds to Zb: each of its entries to the place of its observation.
fn add_row(zt: &Sparse<'_>, rows: usize, n: usize, b: &[f64], a: usize, out: &mut [f64])
    requires rows { RowsIn zt.now rows n }
    requires a_lt_rows { (a < rows) × (rows ≤ length b.now) × (n ≤ length out.old) }
    ensures { out.new
        ≡ fill_to n (added_at (sparse_in zt.now) b.now a out.old) out.old }
{
    let end = zt.starts[a + 1];
    for k in zt.starts[a]..end {
        let i = zt.columns[k];
        out[i] = out[i] + zt.values[k] * b[a];
    }
}

// Zb into out. Row after row is added, so that each place adds up its rows in ascending order.
pub fn z_times(zt: &Sparse<'_>, rows: usize, n: usize, b: &[f64], out: &mut [f64])
    requires rows { RowsIn zt.now rows n }
    requires rows_in_bounds { (rows ≤ length b.now) × (n ≤ length out.old) }
    ensures { out.new ≡ fill_to n (z_times_at (sparse_in zt.now) rows b.now) out.old }
{
    base::wipe(out, n);
    for a in 0..rows {
        add_row(zt, rows, n, b, a, out);
    }
}
