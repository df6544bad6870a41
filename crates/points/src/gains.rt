// What a point's effects do to the deviance, at the observations that enter its sum.
ghost use Rattle.std.specs.Prelude.{◌≡◌, ◌+◌, ◌≤◌, length};
ghost use Rattle.base.specs.Sum.{add_where, sum_where};
ghost use Rattle.base.specs.List.{build};
ghost use Rattle.base.specs.Rows.{row, Apart, Wrote};
ghost use Rattle.working.specs.Optional.{Optional};
ghost use Rattle.agq_rule.specs.Term.{delta_of};
ghost use Rattle.points.specs.Gain.{marked, mark_at, one_at, mean_over, entered, MarkedIn};
ghost use Rattle.stored.specs.Lent.{sparse_in, RowsIn};

use family::{CarriedFamily, CarriedLink, dev_resid, link_inv};
use family_lists::weight_at;
use stored::Sparse;
use working::plus_offset;

// 1.0 into the row at mark: every observation enters.
pub fn mark_all(n: usize, mark: usize, r: &mut [f64])
    requires { mark + n ≤ length r.old }
    ensures { Wrote mark n (build one_at n) r.old r.new }
{
    r[mark..mark + n].fill(1.0);
}

// 1.0 into the row at mark wherever row a of Z' stores an observation.
fn mark_one(zt: &Sparse<'_>, rows: usize, n: usize, a: usize, mark: usize, r: &mut [f64])
    requires rows { RowsIn zt.now rows n }
    requires a_bound { (a + 1 ≤ rows) × (mark + n ≤ length r.old) }
    ensures { MarkedIn (sparse_in zt.now) a mark n r.old r.new }
{
    let end = zt.starts[a + 1];
    for k in zt.starts[a]..end {
        let i = zt.columns[k];
        r[mark + i] = 1.0;
    }
}

// 1.0 or 0.0 into the row at mark: whether one of the k rows of Z' from s on stores the observation.
pub fn mark_group(
    zt: &Sparse<'_>,
    rows: usize,
    n: usize,
    s: usize,
    k: usize,
    mark: usize,
    r: &mut [f64],
)
    requires rows { RowsIn zt.now rows n }
    requires k_bound { (s + k ≤ rows) × (mark + n ≤ length r.old) }
    ensures { Wrote mark n (build (mark_at (sparse_in zt.now) s k) n) r.old r.new }
{
    r[mark..mark + n].fill(0.0);
    for i in 0..k {
        mark_one(zt, rows, n, s + i, mark, r);
    }
}

// What the row of means holds for observation i: its mean where it is marked, only there one is formed; else its Zb, which stood there.
fn mean_over(
    link: CarriedLink,
    offset: &[f64],
    n: usize,
    xbeta: usize,
    zb: usize,
    mark: usize,
    r: &[f64],
    i: usize,
) -> f64
    requires { (i + 1 ≤ n) × (Optional n offset.now) × (xbeta + n ≤ length r.now) × (zb + n ≤ length r.now) × (mark + n ≤ length r.now) }
    ensures { result ≡ mean_over link offset.now (row xbeta n r.now) (row zb n r.now) (row mark n r.now) i }
{
    let effect = r[zb + i];
    if 0.0 < r[mark + i] {
        link_inv(link, plus_offset(offset, i, r[xbeta + i] + effect))
    } else {
        effect
    }
}

// The means of the marked observations over their Zb, in its row; Xβ and the mark stand in rows of their own. Means and deviances are formed
// in two passes, each of which a processor foresees better than both at once.
pub fn point_means(
    link: CarriedLink,
    offset: &[f64],
    n: usize,
    xbeta: usize,
    zb: usize,
    mark: usize,
    r: &mut [f64],
)
    requires { (Optional n offset.now)
        × (xbeta + n ≤ length r.old)
        × (zb + n ≤ length r.old)
        × (mark + n ≤ length r.old)
        × (Apart xbeta n zb n)
        × (Apart mark n zb n) }
    ensures { Wrote zb n (build (mean_over link offset.now (row xbeta n r.old) (row zb n r.old) (row mark n r.old)) n)
        r.old r.new }
{
    for i in 0..n {
        let mean = mean_over(link, offset, n, xbeta, zb, mark, r, i);
        r[zb + i] = mean;
    }
}

// The sum with what observation i adds to it, where it is marked. The deviances at the mode, the means and the mark stand in rows of r.
fn add_gain(
    family: CarriedFamily,
    y: &[f64],
    weights: &[f64],
    n: usize,
    devs: usize,
    means: usize,
    mark: usize,
    r: &[f64],
    i: usize,
    sum: f64,
) -> f64
    requires { (i + 1 ≤ n) × (n ≤ length y.now) × (devs + n ≤ length r.now) × (means + n ≤ length r.now) × (mark + n ≤ length r.now) }
    ensures { result
        ≡ add_where (marked (row mark n r.now) i) sum
        (entered family y.now weights.now (row means n r.now) (row devs n r.now) i) }
{
    if 0.0 < r[mark + i] {
        let dev = dev_resid(family, y[i], r[means + i], weight_at(weights, i));
        sum + (dev - r[devs + i])
    } else {
        sum
    }
}

// dd: the sum over the marked observations of the deviance at the point less that at the mode.
pub fn deviance_gain(
    family: CarriedFamily,
    y: &[f64],
    weights: &[f64],
    n: usize,
    devs: usize,
    means: usize,
    mark: usize,
    r: &[f64],
) -> f64
    requires { (n ≤ length y.now) × (devs + n ≤ length r.now) × (means + n ≤ length r.now) × (mark + n ≤ length r.now) }
    ensures { result
        ≡ sum_where n (marked (row mark n r.now))
        (entered family y.now weights.now (row means n r.now) (row devs n r.now)) }
{
    let mut sum = 0.0;
    for i in 0..n {
        sum = add_gain(family, y, weights, n, devs, means, mark, r, i, sum);
    }
    sum
}

// delta of a point, from dd, inv_phi and the penalty.
pub fn delta(inv_phi: f64, dd: f64, pen: f64) -> f64
    ensures { result ≡ delta_of inv_phi dd pen }
{
    -0.5 * dd * inv_phi - 0.5 * pen
}
