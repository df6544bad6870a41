// All that is printed of one answer, in a lent buffer: a refusal's line, or the end line, and behind it the values where the call is fitted.
#![tactic(auto)]

ghost use Rattle.std.specs.Prelude.{◌+◌, ◌*◌, ◌≤◌, length};
ghost use Rattle.lines.specs.Lines.{value_line, Written};
ghost use Rattle.results.specs.Nine.{nine};
ghost use Rattle.report.specs.Report.{value_lines, fixed_lines, effect_lines, row_lines, result_lines, fitted_text, answer_text, Few, results_most, out_room, Grown};

use job::Fault;
use model::Answer;

// One line of a value, behind the first `at` bytes.
fn put_value(out: &mut [u8], at: usize, name: &[u8], index: usize, x: f64) -> usize
    requires { (length name.now ≤ 16) × (at + 256 ≤ length out.old) }
    ensures { Grown (value_line name.now index x) 64 at out.old result out.new }
{
    let end = out.len();
    let n = lines::value_line(&mut out[at..end], name, index, x);
    at + n
}

// A list, a line for each value.
fn put_values(out: &mut [u8], at: usize, name: &[u8], xs: &[f64]) -> usize
    requires { (length name.now ≤ 16) × (at + 64 * length xs.now + 256 ≤ length out.old) }
    ensures { Grown (value_lines name.now xs.now) (64 * length xs.now) at out.old result out.new }
{
    let mut here = at;
    for i in 0..xs.len() {
        let x = xs[i];
        here = put_value(out, here, name, i, x);
    }
    here
}

// beta, se and z.
fn put_fixed(out: &mut [u8], at: usize, beta: &[f64], se: &[f64], z: &[f64]) -> usize
    requires { (at + 3328 ≤ length out.old) × (length beta.now ≤ 16) × (length se.now ≤ 16) × (length z.now ≤ 16) }
    ensures { Grown (fixed_lines beta.now se.now z.now) 3072 at out.old result out.new }
{
    let beta_end = put_values(out, at, b"beta", beta);
    let se_end = put_values(out, beta_end, b"se", se);
    put_values(out, se_end, b"z", z)
}

// u and b.
fn put_effects(out: &mut [u8], at: usize, u: &[f64], b: &[f64]) -> usize
    requires { (at + 4352 ≤ length out.old) × (length u.now ≤ 32) × (length b.now ≤ 32) }
    ensures { Grown (effect_lines u.now b.now) 4096 at out.old result out.new }
{
    let u_end = put_values(out, at, b"u", u);
    put_values(out, u_end, b"b", b)
}

// mu, eta and residual.
fn put_rows(out: &mut [u8], at: usize, mu: &[f64], eta: &[f64], residual: &[f64]) -> usize
    requires { (at + 98560 ≤ length out.old) × (length mu.now ≤ 512) × (length eta.now ≤ 512) × (length residual.now ≤ 512) }
    ensures { Grown (row_lines mu.now eta.now residual.now) 98304 at out.old result out.new }
{
    let mu_end = put_values(out, at, b"mu", mu);
    let eta_end = put_values(out, mu_end, b"eta", eta);
    put_values(out, eta_end, b"residual", residual)
}

// The nine results, one behind another: at most 1,904 lines.
fn put_results(
    out: &mut [u8],
    at: usize,
    beta: &[f64],
    se: &[f64],
    z: &[f64],
    u: &[f64],
    b: &[f64],
    mu: &[f64],
    eta: &[f64],
    residual: &[f64],
    v: &[f64],
) -> usize
    requires { (at ≤ 512) × (out_room ≤ length out.old) × Few (nine beta.now se.now z.now u.now b.now mu.now eta.now residual.now v.now) }
    ensures { Grown
        (result_lines
        (nine beta.now se.now z.now u.now b.now mu.now eta.now
        residual.now v.now)) results_most at out.old result out.new }
{
    let fixed_end = put_fixed(out, at, beta, se, z);
    let effects_end = put_effects(out, fixed_end, u, b);
    let rows_end = put_rows(out, effects_end, mu, eta, residual);
    put_values(out, rows_end, b"v", v)
}

// A fitted call: the end line, deviance, phi and the nine results.
fn put_fitted(
    out: &mut [u8],
    answer: Answer,
    beta: &[f64],
    se: &[f64],
    z: &[f64],
    u: &[f64],
    b: &[f64],
    mu: &[f64],
    eta: &[f64],
    residual: &[f64],
    v: &[f64],
) -> usize
    requires { (out_room ≤ length out.old) × Few (nine beta.now se.now z.now u.now b.now mu.now eta.now residual.now v.now) }
    ensures { Written
        (fitted_text answer
        (nine beta.now se.now z.now u.now b.now mu.now eta.now
        residual.now v.now)) out.old result out.new }
{
    let ended = lines::end_line(out, answer);
    let deviance_end = put_value(out, ended, b"deviance", 0, answer.deviance);
    let phi_end = put_value(out, deviance_end, b"phi", 0, answer.phi);
    put_results(out, phi_end, beta, se, z, u, b, mu, eta, residual, v)
}

// Any answer. The refusals of the table are told at byte 0.
pub fn put_answer(
    out: &mut [u8],
    answer: Answer,
    beta: &[f64],
    se: &[f64],
    z: &[f64],
    u: &[f64],
    b: &[f64],
    mu: &[f64],
    eta: &[f64],
    residual: &[f64],
    v: &[f64],
) -> usize
    requires { (out_room ≤ length out.old) × Few (nine beta.now se.now z.now u.now b.now mu.now eta.now residual.now v.now) }
    ensures { Written
        (answer_text answer
        (nine beta.now se.now z.now u.now b.now mu.now eta.now
        residual.now v.now)) out.old result out.new }
{
    let number = answer.number;
    if number == 0 {
        return put_fitted(out, answer, beta, se, z, u, b, mu, eta, residual, v);
    }
    if model::is_end(number) {
        return lines::end_line(out, answer);
    }
    lines::refused_line(
        out,
        Fault {
            number: number as u64,
            byte: 0,
        },
    )
}
