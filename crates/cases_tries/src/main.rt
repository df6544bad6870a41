// Runs the tries of one iteration on two observations, and single tries, and prints every bit of what they answer and leave.
// The rows stand one behind the other, the previous predictor, the candidate, the raw predictor and the means, and a last place stays as it was.
// A case is fed as tools/cases/tries.py says.
#![tactic(auto)]

ghost use Rattle.std.specs.Prelude.{◌≡◌, length};

use model::Account;
use tries::TryRefusal;

// Their account, and the PWRSS where one was accepted.
fn put_tries(t: Result<(f64, Account), Account>) {
    match t {
        Ok((p, made)) => {
            fed::put_account(made);
            text::put_double(p);
        }
        Err(made) => fed::put_account(made),
    }
}

// The number of the test that refused it, or 0 and its PWRSS.
fn put_try(t: Result<f64, TryRefusal>) {
    match t {
        Err(TryRefusal::Eta) => text::put_count(1),
        Err(TryRefusal::Mean) => text::put_count(2),
        Err(TryRefusal::Pwrss) => text::put_count(3),
        Ok(p) => {
            text::put_count(0);
            text::put_double(p);
        }
    }
}

// The tries of an iteration where the step is zero, else the one try with it; then the four rows and the last place.
fn run(u: &[f64], w: &[f64], z: &[f64], rows: &mut [f64])
    requires { (length u.now ≡ 2) × (length w.now ≡ 2) × (length z.now ≡ 2) × (length rows.old ≡ 9) }
{
    let step = fed::number();
    let link = family::carried_link(fed::link());
    if step == 0.0 {
        put_tries(tries::tries(link, 2, 2, 0, 2, 4, 6, u, w, z, rows));
    } else {
        put_try(tries::one_try(link, 2, 2, 0, 2, 4, 6, step, u, w, z, rows));
    }
    text::put_list(b"", rows, 9);
}

fn next_case() {
    let u = fed::next_numbers::<2>();
    let w = fed::next_numbers::<2>();
    let z = fed::next_numbers::<2>();
    let mut rows = fed::next_numbers::<9>();
    run(&u, &w, &z, &mut rows);
}

fn main() {
    fed::each_call(next_case);
}
