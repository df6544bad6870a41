// The offset, which may be absent, in what X and Z are fitted to and in the raw predictor.
ghost use Rattle.std.specs.Prelude.{◌≡◌, ◌+◌, ◌*◌, ◌≤◌, length};
ghost use Rattle.base.specs.List.{fill_to};
ghost use Rattle.rule.specs.Given.{plus_offset, less_offset};
ghost use Rattle.rule.specs.Solve.{raw_at};
ghost use Rattle.working.specs.Optional.{Optional};

// v plus the offset of observation i, where there is an offset.
#[tactic(auto, unfolding(rule::specs::Given::plus_offset, rule::specs::Given::absent))]
pub fn plus_offset(offset: &[f64], i: usize, v: f64) -> f64
    requires { Optional (i + 1) offset.now }
    ensures { result ≡ plus_offset offset.now i v }
{
    if offset.is_empty() { v } else { v + offset[i] }
}

// v less the offset of observation i, where there is an offset.
#[tactic(auto, unfolding(rule::specs::Given::less_offset, rule::specs::Given::absent))]
pub fn less_offset(offset: &[f64], i: usize, v: f64) -> f64
    requires { Optional (i + 1) offset.now }
    ensures { result ≡ less_offset offset.now i v }
{
    if offset.is_empty() { v } else { v - offset[i] }
}

// The raw predictor into out, which holds Zb.
pub fn raw_row(offset: &[f64], x: &[f64], beta: &[f64], n: usize, p: usize, out: &mut [f64])
    requires { (Optional n offset.now) × (n * p ≤ length x.now) × (p ≤ length beta.now) × (n ≤ length out.old) }
    ensures { out.new ≡ fill_to n (raw_at offset.now x.now p beta.now out.old) out.old }
{
    for i in 0..n {
        let o = base::offset(i, n, p);
        let sum = base::dot_from(x, o, beta, p) + out[i];
        out[i] = plus_offset(offset, i, sum);
    }
}
