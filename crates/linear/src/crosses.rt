// X'WX up to its diagonal. Several columns of a row of it are summed side by side in an array of a fixed size: none waits for another's addition, and
// since they stand side by side in a row of X, the processor's lanes can be used.
ghost use Rattle.std.specs.Prelude.{◌≡◌, ◌+◌, ◌*◌, ◌≤◌, ◌<◌, length};
ghost use Rattle.base.specs.List.{build, fill_to, zero_at};
ghost use Rattle.linear.specs.Product.{cross_at};
ghost use Rattle.linear.specs.SideBySide.{added_at, cross_from, begin_at, RowOn, RowLeft, CrossLeft};

// v times `count` numbers of x from o on, each added to its own sum.
fn add_products(v: f64, x: &[f64], o: usize, count: usize, sums: &mut [f64])
    requires { (o + count ≤ length x.now) × (count ≤ length sums.old) }
    ensures { sums.new ≡ fill_to count (added_at v x.now o sums.old) sums.old }
{
    for k in 0..count {
        sums[k] = sums[k] + v * x[o + k];
    }
}

// Row a of X'WX, its `count` columns from b on, into sums that are +0.0 before.
fn crosses(
    x: &[f64],
    w: &[f64],
    n: usize,
    p: usize,
    a: usize,
    b: usize,
    count: usize,
    sums: &mut [f64],
)
    requires { (n * p ≤ length x.now) × (n ≤ length w.now) × (a < p) × (b + count ≤ p) × (sums.old ≡ build zero_at count) }
    ensures { sums.new ≡ build (cross_from x.now p n w.now a b) count }
{
    for i in 0..n {
        let o = base::offset(i, n, p);
        let v = x[o + a] * w[i];
        let c = o + b;
        add_products(v, x, c, count, sums);
    }
}

// N columns of row a from b on, into the front of out. Each width that is called is a function of its own, so the count of its sums is a constant.
fn some_columns<const N: usize>(
    x: &[f64],
    w: &[f64],
    n: usize,
    p: usize,
    a: usize,
    b: usize,
    out: &mut [f64],
)
    requires { (n * p ≤ length x.now) × (n ≤ length w.now) × (a < p) × (b + N ≤ p) × (N ≤ length out.old) }
    ensures { out.new ≡ fill_to N (cross_from x.now p n w.now a b) out.old }
{
    let mut sums = [0.0; N];
    crosses(x, w, n, p, a, b, N, &mut sums);
    base::copy(&sums, out, N);
}

// Where `count` columns that are to begin at b begin, so that they end within p: at b, or before it, and then some are summed once more.
pub fn begin_at(b: usize, p: usize, count: usize) -> usize
    requires { count ≤ p }
    ensures { result ≡ begin_at b p count }
{
    b.min(p - count)
}

// Some columns of row a from b on into out, which has a place for each column; returns the column behind them. Those behind the diagonal may be among them.
fn cross_from(
    x: &[f64],
    w: &[f64],
    n: usize,
    p: usize,
    a: usize,
    b: usize,
    out: &mut [f64],
) -> usize
    requires { (n * p ≤ length x.now) × (n ≤ length w.now) × (a < p) × (b ≤ a) × (length out.old ≡ p) }
    ensures { RowOn p (cross_at x.now p n w.now a) b result out.old out.new }
{
    if p < 2 {
        let e = b + 1;
        some_columns::<1>(x, w, n, p, a, b, &mut out[b..e]);
        return e;
    }
    if p < 6 {
        let o = begin_at(b, p, 2);
        let e = o + 2;
        some_columns::<2>(x, w, n, p, a, o, &mut out[o..e]);
        return e;
    }
    if b + 6 <= a && b + 12 <= p {
        let e = b + 12;
        some_columns::<12>(x, w, n, p, a, b, &mut out[b..e]);
        return e;
    }
    let o = begin_at(b, p, 6);
    let e = o + 6;
    some_columns::<6>(x, w, n, p, a, o, &mut out[o..e]);
    e
}

// Row a up to its diagonal into out, which has a place for each column.
fn cross_row(x: &[f64], w: &[f64], n: usize, p: usize, a: usize, out: &mut [f64])
    requires { (n * p ≤ length x.now) × (n ≤ length w.now) × (a < p) × (length out.old ≡ p) }
    ensures { RowLeft a (cross_at x.now p n w.now a) out.old out.new }
{
    let mut b = 0;
    // `while`: how far a turn comes is the width that it takes, and 12 columns, 6 and less take turns in one row.
    while b <= a {
        b = cross_from(x, w, n, p, a, b, out);
    }
}

// X'WX up to its diagonal into out, which has p rows of p places.
pub fn cross_rows(x: &[f64], w: &[f64], n: usize, p: usize, out: &mut [f64])
    requires { (n * p ≤ length x.now) × (n ≤ length w.now) × (length out.old ≡ p * p) }
    ensures { CrossLeft p (cross_at x.now p n w.now) out.old out.new }
{
    for a in 0..p {
        let o = base::offset(a, p, p);
        let e = o + p;
        cross_row(x, w, n, p, a, &mut out[o..e]);
    }
}
