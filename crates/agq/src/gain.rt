// dd of a point, from the effects there.
ghost use Rattle.agq.specs.Gained.{RoomFor, GainedFor};

use points::{deviance_gain, lambda_within, point_means};
use rule::Given;

// dd of the effects in the q places of m at trial: b = Λu goes behind them, Zb and then the means into the third of the four rows of r at xbeta,
// which hold Xβ, the deviances at the mode, the means and the mark.
pub fn point_gain(
    given: &Given<'_>,
    xbeta: usize,
    r: &mut [f64],
    trial: usize,
    m: &mut [f64],
) -> f64
    requires { RoomFor given.now xbeta r.old trial m.old }
    ensures { GainedFor given.now xbeta trial r.old r.new m.old m.new result }
{
    let design = &given.design;
    let b = trial + design.q;
    let be = b + design.q;
    let devs = xbeta + design.n;
    let zb = devs + design.n;
    let mark = zb + design.n;
    lambda_within(design.shape, design.theta, design.q, trial, b, m);
    stored::z_times(&design.zt, design.q, design.n, &m[b..be], &mut r[zb..mark]);
    point_means(given.link, design.offset, design.n, xbeta, zb, mark, r);
    deviance_gain(
        given.family,
        given.y,
        given.weights,
        design.n,
        devs,
        zb,
        mark,
        r,
    )
}
