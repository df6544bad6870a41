// Runs the list functions and the AIC on special and ordinary lists and prints every bit, one line a call or a few.
// The steps are fed as tools/cases/family_lists.py says: each a code, a word to print, and the numbers that its lists are parts of.
#![tactic(auto)]

use family::{CarriedFamily, CarriedLink};
use family_lists::ListError;

fn next_family() -> CarriedFamily {
    CarriedFamily::from(fed::family())
}

fn next_link() -> CarriedLink {
    match fed::count() {
        0 => CarriedLink::Logit,
        1 => CarriedLink::Cloglog,
        2 => CarriedLink::Log,
        3 => CarriedLink::Inverse,
        _ => CarriedLink::Sqrt,
    }
}

// The number of an answer, and its value where it has one.
fn put_aic(answer: Result<f64, ListError>) {
    match answer {
        Ok(x) => {
            text::put_count(0);
            text::put_double(x);
        }
        Err(ListError::LengthsDiffer) => text::put_count(2),
    }
}

fn aic(xs: &[f64]) {
    put_aic(family_lists::aic(
        next_family(),
        fed::part(xs, 0),
        fed::part(xs, 3),
        fed::part(xs, 6),
        fed::number(),
    ));
}

fn put_answer(answer: Result<(), ListError>) {
    text::put_count(family_lists::list_number(answer) as u64);
}

// The list functions of a link.
fn link_list(code: usize, xs: &[f64], out: &mut [f64]) -> Result<(), ListError> {
    let link = next_link();
    let x = fed::part(xs, 0);
    match code {
        1 => family_lists::link_fun_list(link, x, out),
        2 => family_lists::link_inv_list(link, x, out),
        _ => family_lists::mu_eta_list(link, x, out),
    }
}

// Those of a family.
fn family_list(code: usize, xs: &[f64], out: &mut [f64]) -> Result<(), ListError> {
    let family = next_family();
    let x = fed::part(xs, 0);
    match code {
        4 => family_lists::variance_list(family, x, out),
        5 => family_lists::initialize_mu_list(family, x, out),
        _ => family_lists::dev_resid_list(family, x, fed::part(xs, 3), fed::part(xs, 6), out),
    }
}

// What a step does with the output: calls a list function, takes what it holds before, or prints it.
fn run(code: usize, xs: &[f64], out: &mut [f64]) {
    match code {
        1..=3 => put_answer(link_list(code, xs, out)),
        4..=6 => put_answer(family_list(code, xs, out)),
        7 => fed::numbers(out),
        8 => text::put_list(b"", out, out.len()),
        9 => text::put_double(fed::number()),
        _ => aic(xs),
    }
}

// A step of this code. The output is empty where the next count is zero.
fn step(code: usize, out: &mut [f64]) {
    let mut xs = [0.0; 9];
    fed::numbers(&mut xs);
    if fed::count() == 0 {
        run(code, &xs, &mut []);
    } else {
        run(code, &xs, out);
    }
}

fn main() {
    let mut out = [0.0; 3];
    for _ in 0..1000 {
        let code = fed::count();
        if code == 0 {
            return;
        }
        fed::put_name();
        step(code, &mut out);
    }
}
