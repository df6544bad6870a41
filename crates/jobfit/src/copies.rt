// The numbers of a fitted call, one list behind another in the front of a lent buffer.
ghost use Rattle.std.specs.Prelude.{◌≡◌, ◌++◌, ◌+◌, ◌≤◌, length};
ghost use Rattle.job.specs.Lists.{laid};
ghost use Rattle.results.specs.Nine.{nine};
ghost use Rattle.jobfit.specs.Done.{numbers_of};
ghost use Rattle.jobfit.specs.Room.{Copied, numbers_length};

use model::Answer;

// A list behind the first `at` numbers; answers where it ends.
fn copy_behind(list: &[f64], at: usize, out: &mut [f64]) -> usize
    requires { at + length list.now ≤ length out.old }
    ensures { Copied list.now at out.old result out.new }
{
    let n = list.len();
    for i in 0..n {
        out[at + i] = list[i];
    }
    at + n
}

fn copy_two(first: &[f64], second: &[f64], at: usize, out: &mut [f64]) -> usize
    requires { at + (length first.now + length second.now) ≤ length out.old }
    ensures { Copied (first.now ++ second.now) at out.old result out.new }
{
    let ended = copy_behind(first, at, out);
    copy_behind(second, ended, out)
}

fn copy_three(first: &[f64], second: &[f64], third: &[f64], at: usize, out: &mut [f64]) -> usize
    requires { at + (length first.now + (length second.now + length third.now)) ≤ length out.old }
    ensures { Copied (first.now ++ (second.now ++ third.now)) at out.old result out.new }
{
    let ended = copy_behind(first, at, out);
    copy_two(second, third, ended, out)
}

// Deviance, phi and the nine results.
pub fn put_numbers(
    answer: Answer,
    beta: &[f64],
    se: &[f64],
    z: &[f64],
    u: &[f64],
    b: &[f64],
    mu: &[f64],
    eta: &[f64],
    residual: &[f64],
    v: &[f64],
    out: &mut [f64],
)
    requires { numbers_length (nine beta.now se.now z.now u.now b.now mu.now eta.now residual.now v.now) ≤ length out.old }
    ensures { out.new
        ≡ laid
        (numbers_of answer
        (nine beta.now se.now z.now u.now b.now mu.now eta.now
        residual.now v.now)) out.old }
{
    out[0] = answer.deviance;
    out[1] = answer.phi;
    let fixed_end = copy_three(beta, se, z, 2, out);
    let effects_end = copy_two(u, b, fixed_end, out);
    let rows_end = copy_three(mu, eta, residual, effects_end, out);
    copy_behind(v, rows_end, out);
}
