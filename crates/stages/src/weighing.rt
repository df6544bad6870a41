// The first stage of an iteration: w and z of the predictor, and what X and Z are fitted to.
ghost use Rattle.std.specs.Prelude.{◌≡◌, true, ◌+◌, ◌≤◌, length};
ghost use Rattle.base.specs.List.{build, fill_at};
ghost use Rattle.base.specs.Rows.{row};
ghost use Rattle.base.specs.Sum.{product_at};
ghost use Rattle.layout.specs.WorkRows.{mu_row};
ghost use Rattle.rule.specs.Working.{target_at};
ghost use Rattle.working.specs.Met.{Met};
ghost use Rattle.working.specs.Optional.{Optional};
ghost use Rattle.stages.specs.Held.{eta_row};
ghost use Rattle.stages.specs.Weighed.{WeighRoom, Weighs};

use crate::holders::holder;
use family::{CarriedFamily, CarriedLink};
use working::{less_offset, working_rows};

// z - offset into the row at `working`, w·(z - offset) into the row at `weighted`, in one pass.
pub fn targets_into(
    offset: &[f64],
    w: &[f64],
    z: &[f64],
    n: usize,
    weighted: usize,
    working: usize,
    r: &mut [f64],
)
    requires { (Optional n offset.now) × (n ≤ length w.now) × (n ≤ length z.now) × (weighted + n ≤ working) × (working + n ≤ length r.old) }
    ensures { r.new
        ≡ fill_at working n (target_at offset.now z.now)
        (fill_at weighted n (product_at w.now (build (target_at offset.now z.now) n)) r.old) }
{
    for i in 0..n {
        let target = less_offset(offset, i, z[i]);
        r[weighted + i] = w[i] * target;
        r[working + i] = target;
    }
}

// w and z of the predictor into t, z - offset and w·(z - offset) into r, where the predictor and its means stand; met as for `working_rows`.
pub fn weigh(
    family: CarriedFamily,
    link: CarriedLink,
    met: bool,
    phi: f64,
    y: &[f64],
    weights: &[f64],
    offset: &[f64],
    n: usize,
    q: usize,
    in_second: bool,
    r: &mut [f64],
    t: &mut [f64],
)
    requires weigh_room { WeighRoom n q y.now offset.now r.old t.old }
    requires met { met ≡ true → Met link n (row (eta_row n in_second) n r.old) (row (mu_row n) n r.old) }
    ensures { Weighs family link phi y.now weights.now offset.now n q (row (eta_row n in_second) n r.old)
        (row (mu_row n) n r.old) r.old r.new t.old t.new }
{
    let second = layout::second_eta_row(n);
    let mu = layout::mu_row(n);
    let raw = layout::raw_row(n);
    let w = layout::w_at(q);
    let z = layout::z_at(n, q);
    let unsolved = layout::unsolved_at(n, q);
    let weighted = layout::weighted_row(n);
    let working = layout::working_row(n);
    let eta = holder(&r[0..second], &r[second..mu], n, in_second);
    working_rows(
        family,
        link,
        met,
        phi,
        y,
        weights,
        eta,
        &r[mu..raw],
        n,
        w,
        z,
        t,
    );
    targets_into(offset, &t[w..z], &t[z..unsolved], n, weighted, working, r);
}
