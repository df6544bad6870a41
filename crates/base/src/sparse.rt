// Number 6 of document 01's table: row starts and columns of a matrix by its rows.
ghost use Rattle.std.specs.Prelude.{◌≡◌, true, ◌+◌, ◌≤◌, ◌<◌, length};
ghost use Rattle.base.specs.Sparse.{good_starts, column_fits, good_columns, good_rows};

// Whether the starts of `rows` rows go from 0 to the entry count without falling.
pub fn starts_ok(starts: &[usize], rows: usize, count: usize) -> bool
    requires { rows < length starts.now }
    ensures { result ≡ good_starts starts.now rows count }
{
    starts[0] == 0 && starts[rows] == count && (0..rows).all(|a| starts[a] <= starts[a + 1])
}

// Whether the column of entry t of the row at b is below n and, unless it is the row's first, above the one before it.
fn column_fits(columns: &[usize], n: usize, b: usize, t: usize) -> bool
    requires { b + t < length columns.now }
    ensures { result ≡ column_fits columns.now n b t }
{
    let k = b + t;
    columns[k] < n && (t == 0 || columns[k - 1] < columns[k])
}

// Whether each column of the row from b to e is below n and above the one before it.
pub fn columns_ok(columns: &[usize], n: usize, b: usize, e: usize) -> bool
    requires { (b ≤ e) × (e ≤ length columns.now) }
    ensures { result ≡ good_columns columns.now n b e }
{
    (0..e - b).all(|t| column_fits(columns, n, b, t))
}

// Whether the starts are good, and the columns of every row.
pub fn rows_ok(starts: &[usize], columns: &[usize], rows: usize, n: usize) -> bool
    requires { rows < length starts.now }
    ensures { result ≡ good_rows starts.now columns.now rows n }
{
    starts_ok(starts, rows, columns.len())
        && (0..rows).all(|a| columns_ok(columns, n, starts[a], starts[a + 1]))
}
