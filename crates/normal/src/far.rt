// The tail past y, for y from 1.7677 on: fdlibm's approximation of erfc (musl's erf.c), with one exponential of two parts (docs/ELEMENTARY.md).
ghost use Rattle.std.specs.Prelude.{◌≡◌};
ghost use Rattle.normal.specs.Tail.{inner_part, outer_part, far_part, tail_by, tail_far};

use crate::parts::{half_rest, half_square, on_grid};
use elementary::exp_two;

// 0.5625 + ln 2 / 2, its digits down to 2^-33, and what it lacks.
const TAIL_HI: f64 = 0.909073590184561908245086669922;

const TAIL_LO: f64 = 9.541074646352939e-11;

// RA over SA, up to y / sqrt 2 = 1 / 0.35.
const RA0: f64 = -9.86494403484714822705e-03;

const RA1: f64 = -6.93858572707181764372e-01;

const RA2: f64 = -1.05586262253232909814e+01;

const RA3: f64 = -6.23753324503260060396e+01;

const RA4: f64 = -1.62396669462573470355e+02;

const RA5: f64 = -1.84605092906711035994e+02;

const RA6: f64 = -8.12874355063065934246e+01;

const RA7: f64 = -9.81432934416914548592e+00;

const SA1: f64 = 1.96512716674392571292e+01;

const SA2: f64 = 1.37657754143519042600e+02;

const SA3: f64 = 4.34565877475229228821e+02;

const SA4: f64 = 6.45387271733267880336e+02;

const SA5: f64 = 4.29008140027567833386e+02;

const SA6: f64 = 1.08635005541779435134e+02;

const SA7: f64 = 6.57024977031928170135e+00;

const SA8: f64 = -6.04244152148580987438e-02;

// RB over SB, beyond.
const RB0: f64 = -9.86494292470009928597e-03;

const RB1: f64 = -7.99283237680523006574e-01;

const RB2: f64 = -1.77579549177547519889e+01;

const RB3: f64 = -1.60636384855821916062e+02;

const RB4: f64 = -6.37566443368389627722e+02;

const RB5: f64 = -1.02509513161107724954e+03;

const RB6: f64 = -4.83519191608651397019e+02;

const SB1: f64 = 3.03380607434824582924e+01;

const SB2: f64 = 3.25792512996573918826e+02;

const SB3: f64 = 1.53672958608443695994e+03;

const SB4: f64 = 3.19985821950859553908e+03;

const SB5: f64 = 2.55305040643316442583e+03;

const SB6: f64 = 4.74528541206955367215e+02;

const SB7: f64 = -2.24409524465858183362e+01;

// ln(w erfc(w)) + w² + 0.5625 for w from 1.25 to 1 / 0.35, where v is w² and q is 1 / w².
#[tactic(auto, unfolding(crate::specs::Tail::inner_part))]
fn inner(v: f64, q: f64) -> f64
    ensures { result ≡ inner_part v q }
{
    let p = RA3 + q * (RA4 + q * (RA5 + q * (RA6 + q * RA7))) + v * (RA2 + v * (RA1 + v * RA0));
    let s = SA3
        + q * (SA4 + q * (SA5 + q * (SA6 + q * (SA7 + q * SA8))))
        + v * (SA2 + v * (SA1 + v));
    p / s
}

// The same beyond.
#[tactic(auto, unfolding(crate::specs::Tail::outer_part))]
fn outer(q: f64) -> f64
    ensures { result ≡ outer_part q }
{
    let p = RB0 + q * (RB1 + q * (RB2 + q * (RB3 + q * (RB4 + q * (RB5 + q * RB6)))));
    let s = 1.0 + q * (SB1 + q * (SB2 + q * (SB3 + q * (SB4 + q * (SB5 + q * (SB6 + q * SB7))))));
    p / s
}

// The one that y asks for.
#[tactic(auto, unfolding(crate::specs::Tail::far_part))]
fn far_part(y: f64, v: f64) -> f64
    ensures { result ≡ far_part y v }
{
    let q = 1.0 / v;
    if y < 4.04 {
        return inner(v, q);
    }
    outer(q)
}

// exp(r - s - d - 0.5625 - ln 2 / 2) / y: s + TAIL_HI is exact, and what a + r loses is kept.
#[tactic(auto, unfolding(crate::specs::Tail::tail_by))]
fn tail_by(y: f64, s: f64, d: f64, r: f64) -> f64
    ensures { result ≡ tail_by y s d r }
{
    let a = -(s + TAIL_HI);
    let t = a + r;
    exp_two(t, a - t + r - (d + TAIL_LO)) / y
}

// For y from 1.7677 to 39.
#[tactic(auto, unfolding(crate::specs::Tail::tail_far))]
pub fn tail_far(y: f64) -> f64
    ensures { result ≡ tail_far y }
{
    let z = on_grid(y);
    let s = half_square(z);
    let d = half_rest(y, z);
    tail_by(y, s, d, far_part(y, s + d))
}
