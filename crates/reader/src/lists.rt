// The lists of a job, from its bytes into lent slices.
ghost use Rattle.std.specs.Prelude.{◌≡◌, ◌++◌, ◌+◌, ◌*◌, ◌<◌, ◌≤◌, length, take};
ghost use Rattle.base.specs.List.{build};
ghost use Rattle.job.specs.Lists.{counts, join_to, laid};
ghost use Rattle.job.specs.Format.{z_at, number, row_at, start_of, column_read, value_read};
ghost use Rattle.job.specs.Job.{columns_of, values_of};

// n doubles from byte a on, into the front of out.
pub fn read_numbers(s: &[u8], a: usize, n: usize, out: &mut [f64])
    requires { (length s.now ≤ 65536) × (a + 8 * n ≤ length s.now) × (n ≤ length out.old) }
    ensures { out.new ≡ laid (build (number s.now a) n) out.old }
{
    for i in 0..n {
        out[i] = bits::double_at(s, a + 8 * i);
    }
}

// The n entries of the row of Z' at byte p, into columns and values behind their first e.
fn read_row(s: &[u8], p: usize, n: usize, e: usize, columns: &mut [usize], values: &mut [f64])
    requires { (length s.now ≤ 65536) × (p + 2 + 10 * n ≤ length s.now) × (e + n ≤ length columns.old) × (e + n ≤ length values.old) }
    ensures { (columns.new ≡ laid (take e columns.old ++ counts (column_read s.now p) n) columns.old)
        × (values.new ≡ laid (take e values.old ++ build (value_read s.now p) n) values.old) }
{
    for j in 0..n {
        let at = p + 2 + 10 * j;
        columns[e + j] = bits::field_at(s, 8 * at, 13);
        values[e + j] = bits::double_at(s, at + 2);
    }
}

// The q rows of Z' from byte z on; answers the number of entries.
pub fn read_rows(
    s: &[u8],
    z: usize,
    q: usize,
    starts: &mut [usize],
    columns: &mut [usize],
    values: &mut [f64],
) -> usize
    requires s_len_bound { (length s.now ≤ 65536) × (z ≡ z_at s.now) × (row_at s.now q ≤ length s.now) }
    requires q_in_bounds { (q < length starts.old) × (8192 ≤ length columns.old) × (8192 ≤ length values.old) }
    ensures { (result ≡ start_of s.now q)
        × (starts.new ≡ laid (counts (start_of s.now) (q + 1)) starts.old)
        × (columns.new ≡ laid (join_to q (columns_of s.now)) columns.old)
        × (values.new ≡ laid (join_to q (values_of s.now)) values.old) }
{
    let mut at = z;
    let mut e = 0;
    for r in 0..q {
        starts[r] = e;
        let n = bits::field_at(s, 8 * at, 13);
        read_row(s, at, n, e, columns, values);
        e += n;
        at += 2 + 10 * n;
    }
    starts[q] = e;
    e
}
