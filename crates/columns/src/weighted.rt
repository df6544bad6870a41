// Products with the weighted columns x_a·w of X. Several columns are summed at once and weighted on the way, so that none of them is stored; their sums
// stand in an array of a constant count, where none waits for another's addition.
ghost use Rattle.std.specs.Prelude.{◌≡◌, ◌+◌, ◌*◌, ◌≤◌, ◌<◌, length, replicate};
ghost use Rattle.base.specs.Number.{zero_f};
ghost use Rattle.base.specs.List.{build, fill_to, fill_at, grid_to};
ghost use Rattle.base.specs.Sparse.{Rising};
ghost use Rattle.columns.specs.Weighted.{weighted_dot, weighted_side, weighted_more, entries_side, starting_at, Further};
ghost use Rattle.stored.specs.Lent.{sparse_in, RowsIn};

use stored::Sparse;

// v·(x·w) more in each of the first count sums, the numbers x being those of a row from o on.
fn add_weighted(w: f64, v: f64, x: &[f64], o: usize, count: usize, sums: &mut [f64])
    requires { (o + count ≤ length x.now) × (count ≤ length sums.old) }
    ensures { sums.new ≡ fill_to count (weighted_more w v x.now o sums.old) sums.old }
{
    for k in 0..count {
        sums[k] = sums[k] + v * (x[o + k] * w);
    }
}

// The count weighted columns from b on times v, into sums of +0.0.
fn observation_sums(
    x: &[f64],
    w: &[f64],
    v: &[f64],
    n: usize,
    p: usize,
    b: usize,
    count: usize,
    sums: &mut [f64],
)
    requires p_in_bounds { (n * p ≤ length x.now) × (n ≤ length w.now) × (n ≤ length v.now) }
    requires count_bound { (b + count ≤ p) × (sums.old ≡ replicate count zero_f) }
    ensures { sums.new ≡ build (starting_at (weighted_dot x.now p n w.now v.now) b) count }
{
    for i in 0..n {
        let o = base::offset(i, n, p);
        add_weighted(w[i], v[i], x, o + b, count, sums);
    }
}

// N of them, into their places of out. Each width that is called is a function of its own, so the count of its sums is a constant.
fn some_dots<const N: usize>(
    x: &[f64],
    w: &[f64],
    v: &[f64],
    n: usize,
    p: usize,
    b: usize,
    out: &mut [f64],
)
    requires { (n * p ≤ length x.now) × (n ≤ length w.now) × (n ≤ length v.now) × (b + N ≤ p) × (p ≤ length out.old) }
    ensures { out.new ≡ fill_at b N (starting_at (weighted_dot x.now p n w.now v.now) b) out.old }
{
    let mut sums = [0.0; N];
    observation_sums(x, w, v, n, p, b, N, &mut sums);
    let e = b + N;
    base::copy(&sums, &mut out[b..e], N);
}

// Column b and as many behind it as go at once, into out. Tells the column that comes next.
fn dots_from(
    x: &[f64],
    w: &[f64],
    v: &[f64],
    n: usize,
    p: usize,
    b: usize,
    out: &mut [f64],
) -> usize
    requires { (n * p ≤ length x.now) × (n ≤ length w.now) × (n ≤ length v.now) × (b < p) × (p ≤ length out.old) }
    ensures { Further (weighted_dot x.now p n w.now v.now) p b result out.old out.new }
{
    if p < 2 {
        some_dots::<1>(x, w, v, n, p, b, out);
        return b + 1;
    }
    if p < 6 {
        let o = linear::begin_at(b, p, 2);
        some_dots::<2>(x, w, v, n, p, o, out);
        return o + 2;
    }
    let o = linear::begin_at(b, p, 6);
    some_dots::<6>(x, w, v, n, p, o, out);
    o + 6
}

// The products of the weighted columns of X with v: entry a is (x_a·w)·v.
pub fn weighted_dots(x: &[f64], w: &[f64], v: &[f64], n: usize, p: usize, out: &mut [f64])
    requires { (n * p ≤ length x.now) × (n ≤ length w.now) × (n ≤ length v.now) × (p ≤ length out.old) }
    ensures { out.new ≡ fill_to p (weighted_dot x.now p n w.now v.now) out.old }
{
    let mut b = 0;
    // `while`: how far a turn comes is its width, and the last turn begins earlier.
    while b < p {
        b = dots_from(x, w, v, n, p, b, out);
    }
}

// The entries of Z' from begin to end times the count weighted columns from b on, into sums of +0.0.
fn entry_sums(
    zt: &Sparse<'_>,
    begin: usize,
    end: usize,
    x: &[f64],
    w: &[f64],
    n: usize,
    p: usize,
    b: usize,
    count: usize,
    sums: &mut [f64],
)
    requires rising { Rising zt.now.columns.now n begin end }
    requires columns_len { (length zt.now.columns.now ≡ length zt.now.values.now) × (n * p ≤ length x.now) × (n ≤ length w.now) }
    requires count_bound { (b + count ≤ p) × (sums.old ≡ replicate count zero_f) }
    ensures { sums.new
        ≡ build (starting_at (entries_side zt.now.columns.now zt.now.values.now x.now p w.now begin end) b) count }
{
    for k in begin..end {
        let i = zt.columns[k];
        let o = base::offset(i, n, p);
        add_weighted(w[i], zt.values[k], x, o + b, count, sums);
    }
}

// N of them, into their places of out.
fn some_sides<const N: usize>(
    zt: &Sparse<'_>,
    begin: usize,
    end: usize,
    x: &[f64],
    w: &[f64],
    n: usize,
    p: usize,
    b: usize,
    out: &mut [f64],
)
    requires rising { Rising zt.now.columns.now n begin end }
    requires columns_len { (length zt.now.columns.now ≡ length zt.now.values.now) × (n * p ≤ length x.now) × (n ≤ length w.now) }
    requires b_bound { (b + N ≤ p) × (p ≤ length out.old) }
    ensures { out.new
        ≡ fill_at b N (starting_at (entries_side zt.now.columns.now zt.now.values.now x.now p w.now begin end) b) out.old }
{
    let mut sums = [0.0; N];
    entry_sums(zt, begin, end, x, w, n, p, b, N, &mut sums);
    let e = b + N;
    base::copy(&sums, &mut out[b..e], N);
}

// Column b and as many behind it as go at once, into out. Tells the column that comes next. The choice of a width stands here beside that of dots_from: it
// takes a function that has a const parameter, and no closure is one.
fn sides_from(
    zt: &Sparse<'_>,
    begin: usize,
    end: usize,
    x: &[f64],
    w: &[f64],
    n: usize,
    p: usize,
    b: usize,
    out: &mut [f64],
) -> usize
    requires rising { Rising zt.now.columns.now n begin end }
    requires columns_len { (length zt.now.columns.now ≡ length zt.now.values.now) × (n * p ≤ length x.now) × (n ≤ length w.now) }
    requires b_lt_p { (b < p) × (p ≤ length out.old) }
    ensures { Further (entries_side zt.now.columns.now zt.now.values.now x.now p w.now begin end) p b result out.old
        out.new }
{
    if p < 2 {
        some_sides::<1>(zt, begin, end, x, w, n, p, b, out);
        return b + 1;
    }
    if p < 6 {
        let o = linear::begin_at(b, p, 2);
        some_sides::<2>(zt, begin, end, x, w, n, p, o, out);
        return o + 2;
    }
    let o = linear::begin_at(b, p, 6);
    some_sides::<6>(zt, begin, end, x, w, n, p, o, out);
    o + 6
}

// The entries of Z' from begin to end times each weighted column, into out.
fn row_sides(
    zt: &Sparse<'_>,
    begin: usize,
    end: usize,
    x: &[f64],
    w: &[f64],
    n: usize,
    p: usize,
    out: &mut [f64],
)
    requires rising { Rising zt.now.columns.now n begin end }
    requires columns_len { (length zt.now.columns.now ≡ length zt.now.values.now) × (n * p ≤ length x.now) × (n ≤ length w.now) × (p ≤ length out.old) }
    ensures { out.new
        ≡ fill_to p (entries_side zt.now.columns.now zt.now.values.now x.now p w.now begin end) out.old }
{
    let mut b = 0;
    // `while`: how far a turn comes is its width, and the last turn begins earlier.
    while b < p {
        b = sides_from(zt, begin, end, x, w, n, p, b, out);
    }
}

// Z'(x_a·w) for all columns a, by the rows of Z': row g of out has the p numbers of row g.
pub fn weighted_rows(
    zt: &Sparse<'_>,
    x: &[f64],
    w: &[f64],
    n: usize,
    p: usize,
    q: usize,
    out: &mut [f64],
)
    requires rows { RowsIn zt.now q n }
    requires p_in_bounds { (n * p ≤ length x.now) × (n ≤ length w.now) × (q * p ≤ length out.old) }
    ensures { out.new
        ≡ grid_to q p
        (weighted_side (sparse_in zt.now) x.now p n w.now)
        out.old }
{
    for g in 0..q {
        let o = base::offset(g, q, p);
        let e = o + p;
        let begin = zt.starts[g];
        let end = zt.starts[g + 1];
        row_sides(zt, begin, end, x, w, n, p, &mut out[o..e]);
    }
}
