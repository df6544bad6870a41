// The four approximations of ln gamma below 8: fdlibm's, with the order of operations of musl's lgamma_r.c (docs/ELEMENTARY.md).
ghost use Rattle.std.specs.Prelude.{◌≡◌};
ghost use Rattle.log_gamma.specs.Near.{about_two, about_least, about_one, below_three};

// A, around 2.
const A0: f64 = 7.72156649015328655494e-02;

const A1: f64 = 3.22467033424113591611e-01;

const A2: f64 = 6.73523010531292681824e-02;

const A3: f64 = 2.05808084325167332806e-02;

const A4: f64 = 7.38555086081402883957e-03;

const A5: f64 = 2.89051383673415629091e-03;

const A6: f64 = 1.19270763183362067845e-03;

const A7: f64 = 5.10069792153511336608e-04;

const A8: f64 = 2.20862790713908385557e-04;

const A9: f64 = 1.08011567247583939954e-04;

const A10: f64 = 2.52144565451257326939e-05;

const A11: f64 = 4.48640949618915160150e-05;

// The least value, and minus what it lacks.
const TF: f64 = -1.21486290535849611461e-01;

const TT: f64 = -3.63867699703950536541e-18;

// T, around the least value.
const T0: f64 = 4.83836122723810047042e-01;

const T1: f64 = -1.47587722994593911752e-01;

const T2: f64 = 6.46249402391333854778e-02;

const T3: f64 = -3.27885410759859649565e-02;

const T4: f64 = 1.79706750811820387126e-02;

const T5: f64 = -1.03142241298341437450e-02;

const T6: f64 = 6.10053870246291332635e-03;

const T7: f64 = -3.68452016781138256760e-03;

const T8: f64 = 2.25964780900612472250e-03;

const T9: f64 = -1.40346469989232843813e-03;

const T10: f64 = 8.81081882437654011382e-04;

const T11: f64 = -5.38595305356740546715e-04;

const T12: f64 = 3.15632070903625950361e-04;

const T13: f64 = -3.12754168375120860518e-04;

const T14: f64 = 3.35529192635519073543e-04;

// U over V, around 1.
const U0: f64 = -7.72156649015328655494e-02;

const U1: f64 = 6.32827064025093366517e-01;

const U2: f64 = 1.45492250137234768737e+00;

const U3: f64 = 9.77717527963372745603e-01;

const U4: f64 = 2.28963728064692451092e-01;

const U5: f64 = 1.33810918536787660377e-02;

const V1: f64 = 2.45597793713041134822e+00;

const V2: f64 = 2.12848976379893395361e+00;

const V3: f64 = 7.69285150456672783825e-01;

const V4: f64 = 1.04222645593369134254e-01;

const V5: f64 = 3.21709242282423911810e-03;

// S over R, from 2 to 3.
const S0: f64 = -7.72156649015328655494e-02;

const S1: f64 = 2.14982415960608852501e-01;

const S2: f64 = 3.25778796408930981787e-01;

const S3: f64 = 1.46350472652464452805e-01;

const S4: f64 = 2.66422703033638609560e-02;

const S5: f64 = 1.84028451407337715652e-03;

const S6: f64 = 3.19475326584100867617e-05;

const R1: f64 = 1.39200533467621045958e+00;

const R2: f64 = 7.21935547567138069525e-01;

const R3: f64 = 1.71933865632803078993e-01;

const R4: f64 = 1.86459191715652901344e-02;

const R5: f64 = 7.77942496381893596434e-04;

const R6: f64 = 7.32668430744625636189e-06;

// ln gamma(2 - y), for y from 0 to 0.27.
#[tactic(auto, unfolding(crate::specs::Near::about_two))]
pub fn about_two(y: f64) -> f64
    ensures { result ≡ about_two y }
{
    let z = y * y;
    let even = A0 + z * (A2 + z * (A4 + z * (A6 + z * (A8 + z * A10))));
    let odd = z * (A1 + z * (A3 + z * (A5 + z * (A7 + z * (A9 + z * A11)))));
    y * even + odd - 0.5 * y
}

// ln gamma(TC + y), for y from -0.23 to 0.27; it is least at TC.
#[tactic(auto, unfolding(crate::specs::Near::about_least))]
pub fn about_least(y: f64) -> f64
    ensures { result ≡ about_least y }
{
    let z = y * y;
    let w = z * y;
    let p1 = T0 + w * (T3 + w * (T6 + w * (T9 + w * T12)));
    let p2 = T1 + w * (T4 + w * (T7 + w * (T10 + w * T13)));
    let p3 = T2 + w * (T5 + w * (T8 + w * (T11 + w * T14)));
    TF + (z * p1 - (TT - w * (p2 + y * p3)))
}

// ln gamma(1 + y), for y from -0.1 to 0.2316.
#[tactic(auto, unfolding(crate::specs::Near::about_one))]
pub fn about_one(y: f64) -> f64
    ensures { result ≡ about_one y }
{
    let p = y * (U0 + y * (U1 + y * (U2 + y * (U3 + y * (U4 + y * U5)))));
    let q = 1.0 + y * (V1 + y * (V2 + y * (V3 + y * (V4 + y * V5))));
    -0.5 * y + p / q
}

// ln gamma(v), for v from 2 to 3.
#[tactic(auto, unfolding(crate::specs::Near::below_three))]
pub fn below_three(v: f64) -> f64
    ensures { result ≡ below_three v }
{
    let y = v - 2.0;
    let p = y * (S0 + y * (S1 + y * (S2 + y * (S3 + y * (S4 + y * (S5 + y * S6))))));
    let q = 1.0 + y * (R1 + y * (R2 + y * (R3 + y * (R4 + y * (R5 + y * R6)))));
    0.5 * y + p / q
}
