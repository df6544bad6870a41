// The tail past y, for y up to 1.7677: fdlibm's approximations of erf (musl's erf.c), taken at y / sqrt 2 without its rounding (docs/ELEMENTARY.md).
ghost use Rattle.std.specs.Prelude.{◌≡◌};
ghost use Rattle.normal.specs.Tail.{erf_rest, taken_from, tail_near, erfc_near_one, tail_middle};

use crate::parts::{K1, half_rest, half_square, on_grid, root_rest};

// PP over QQ, up to y / sqrt 2 = 0.84375.
const PP0: f64 = 1.28379167095512558561e-01;

const PP1: f64 = -3.25042107247001499370e-01;

const PP2: f64 = -2.84817495755985104766e-02;

const PP3: f64 = -5.77027029648944159157e-03;

const PP4: f64 = -2.37630166566501626084e-05;

const QQ1: f64 = 3.97917223959155352819e-01;

const QQ2: f64 = 6.50222499887672944485e-02;

const QQ3: f64 = 5.08130628187576562776e-03;

const QQ4: f64 = 1.32494738004321644526e-04;

const QQ5: f64 = -3.96022827877536812320e-06;

// PP1 in two parts: s times the first is exact.
const PP1_HI: f64 = -0.3251953125;

const PP1_LO: f64 = 0.00015320525299850063;

// 1 less fdlibm's erx, near to erfc(1).
const ERFC_ONE: f64 = 0.154937088489532470703125;

// PA over QA, around 1.
const PA0: f64 = -2.36211856075265944077e-03;

const PA1: f64 = 4.14856118683748331666e-01;

const PA2: f64 = -3.72207876035701323847e-01;

const PA3: f64 = 3.18346619901161753674e-01;

const PA4: f64 = -1.10894694282396677476e-01;

const PA5: f64 = 3.54783043256182359371e-02;

const PA6: f64 = -2.16637559486879084300e-03;

const QA1: f64 = 1.06420880400844228286e-01;

const QA2: f64 = 5.40397917702171048937e-01;

const QA3: f64 = 7.18286544141962662868e-02;

const QA4: f64 = 1.26171219808761642112e-01;

const QA5: f64 = 1.36370839120290507362e-02;

const QA6: f64 = 1.19844998467991074170e-02;

// erf(w) - w, where w² is s + d.
#[tactic(auto, unfolding(crate::specs::Tail::erf_rest))]
fn erf_rest(w: f64, s: f64, d: f64) -> f64
    ensures { result ≡ erf_rest w s d }
{
    let v = s + d;
    let p = PP0 + s * PP1_HI + (s * PP1_LO + (d * PP1 + v * v * (PP2 + v * (PP3 + v * PP4))));
    let q = 1.0 + v * (QQ1 + v * (QQ2 + v * (QQ3 + v * (QQ4 + v * QQ5))));
    w * p / q
}

// What y / 2 is taken from first, so that the difference is exact.
#[tactic(auto, unfolding(crate::specs::Tail::taken_from))]
fn taken_from(y: f64) -> f64
    ensures { result ≡ taken_from y }
{
    if y < 1.0 { 0.5 } else { 1.0 }
}

// For y up to 1.1932.
#[tactic(auto, unfolding(crate::specs::Tail::tail_near))]
pub fn tail_near(y: f64) -> f64
    ensures { result ≡ tail_near y }
{
    let z = on_grid(y);
    let h = 0.5 * y;
    let b = z * K1;
    let g = root_rest(y, z);
    let c = taken_from(y);
    let rest = erf_rest(h + (b + g), half_square(z), half_rest(y, z));
    0.5 * (1.0 - c + (c - h - b - (g + rest)))
}

// erfc(1 + u) / 2.
#[tactic(auto, unfolding(crate::specs::Tail::erfc_near_one))]
fn erfc_near_one(u: f64) -> f64
    ensures { result ≡ erfc_near_one u }
{
    let t = PA2 + u * (PA3 + u * (PA4 + u * (PA5 + u * PA6)));
    let o = u * (QA1 + u * (QA2 + u * (QA3 + u * (QA4 + u * (QA5 + u * QA6)))));
    let p = PA0 + u * (PA1 + u * t);
    0.5 * (ERFC_ONE - u * PA1 - (PA0 + u * u * t - p * (o / (1.0 + o))))
}

// For y from there to 1.7677.
#[tactic(auto, unfolding(crate::specs::Tail::tail_middle))]
pub fn tail_middle(y: f64) -> f64
    ensures { result ≡ tail_middle y }
{
    let z = on_grid(y);
    erfc_near_one(0.5 * y - 1.0 + z * K1 + root_rest(y, z))
}
