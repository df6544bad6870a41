// Calls the fit with lent slices of given lengths. Prints the answer, every bit of each result that was written, and what stands in the work slices.
// Every array holds 9.25 before a call, and a call is lent the beginnings of the arrays: what stands behind must stay. A call is fed as
// tools/cases/fit.py says.
#![tactic(auto)]

ghost use Rattle.std.specs.Prelude.{◌≤◌, length};

use model::{Account, Answer, Inputs, Settings, Shape};

// How far the list was written: behind the last place that holds another pattern than before.
fn written(xs: &[f64]) -> usize
    ensures { result ≤ length xs.now }
{
    for i in (0..xs.len()).rev() {
        if base::pattern(xs[i]) != fed::LENT {
            return i + 1;
        }
    }
    0
}

// A result: what was written, which must be all that was lent; on the same line as the next where nothing was.
fn put_result(word: &[u8], xs: &[f64]) {
    let n = written(xs);
    if n == 0 {
        text::put_word(word);
        text::put_word(b" as lent; ");
        return;
    }
    text::put_list(word, xs, n);
}

// A work slice: how many +0.0 it begins with, if what follows is as lent.
fn put_work(word: &[u8], xs: &[f64]) {
    let zeros = fed::first_other(xs, 0, 0);
    let other = fed::first_other(xs, zeros, fed::LENT);
    text::put_word(word);
    if other < xs.len() {
        text::put_word(b" else at");
        text::put_count(other as u64);
    } else if zeros == 0 {
        text::put_word(b" as lent");
    } else {
        text::put_word(b" wiped");
        text::put_count(zeros as u64);
    }
}

fn put_results(
    beta: &[f64],
    se: &[f64],
    z: &[f64],
    u: &[f64],
    b: &[f64],
    mu: &[f64],
    eta: &[f64],
    residual: &[f64],
    v: &[f64],
) {
    put_result(b"beta", beta);
    put_result(b"se", se);
    put_result(b"z", z);
    put_result(b"u", u);
    put_result(b"b", b);
    put_result(b"mu", mu);
    put_result(b"eta", eta);
    put_result(b"residual", residual);
    put_result(b"v", v);
}

fn put_works(rows: &[f64], matrices: &[f64], terms: &[f64]) {
    put_work(b"rows", rows);
    put_work(b"; matrices", matrices);
    put_work(b"; terms", terms);
    text::end_line();
}

fn put_account(account: Account) {
    fed::put_named(b" fits", account.fits);
    fed::put_named(b" solves", account.solves);
    fed::put_named(b" tries", account.tries);
    fed::put_named(b" points", account.points);
    fed::put_named(b" eta", account.eta);
    fed::put_named(b" mean", account.mean);
    fed::put_named(b" pwrss", account.pwrss);
    fed::put_named(b" ok", account.ok);
}

fn put_numbers(deviance: f64, phi: f64) {
    text::put_word(b" deviance");
    text::put_double(deviance);
    text::put_word(b" phi");
    text::put_double(phi);
    text::end_line();
}

fn put_answer(a: Answer) {
    fed::put_named(b":", a.number as u64);
    fed::put_named(b" order", a.order as u64);
    text::put_word(b" disp");
    text::put_test(a.converged);
    fed::put_named(b" iters", a.iterations as u64);
    put_account(a.account);
    fed::put_named(b" why", a.why as u64);
    put_numbers(a.deviance, a.phi);
}

// Fills the arrays, calls and prints. The lists are parts of what was read.
fn lend(ns: &[usize], xs: &[f64]) {
    let mut beta = [9.25; 4];
    let mut se = [9.25; 4];
    let mut z = [9.25; 4];
    let mut u = [9.25; 12];
    let mut b = [9.25; 12];
    let mut mu = [9.25; 6];
    let mut eta = [9.25; 6];
    let mut residual = [9.25; 6];
    let mut v = [9.25; 6];
    let mut rows = [9.25; 72];
    let mut matrices = [9.25; 400];
    let mut terms = [9.25; 7008];
    put_answer(glmm::fit(
        next_settings(),
        next_shape(),
        &Inputs {
            theta: fed::part(xs, 0),
            y: fed::part(xs, 21),
            weights: fed::part(xs, 26),
            offset: fed::part(xs, 31),
            x: fed::part(xs, 36),
            starts: fed::part(ns, 0),
            columns: fed::part(ns, 10),
            values: fed::part(xs, 45),
        },
        fed::lent(&mut beta),
        fed::lent(&mut se),
        fed::lent(&mut z),
        fed::lent(&mut u),
        fed::lent(&mut b),
        fed::lent(&mut mu),
        fed::lent(&mut eta),
        fed::lent(&mut residual),
        fed::lent(&mut v),
        fed::lent(&mut rows),
        fed::lent(&mut matrices),
        fed::lent(&mut terms),
    ));
    put_results(&beta, &se, &z, &u, &b, &mu, &eta, &residual, &v);
    put_works(&rows, &matrices, &terms);
}

// The plain numbers of the call.
fn next_settings() -> Settings {
    let family = fed::family();
    let link = fed::link();
    let n_agq = fed::count();
    let limit = fed::limit();
    Settings {
        family,
        link,
        n_agq,
        limit,
        n: fed::count(),
        p: fed::count(),
        rows: fed::count(),
        entries: fed::count(),
        start: fed::start(),
    }
}

// One block or two.
fn next_shape() -> Shape {
    Shape {
        count: fed::count(),
        m: [fed::count(), fed::count(), 0, 0, 0, 0, 0, 0],
        k: [fed::count(), fed::count(), 0, 0, 0, 0, 0, 0],
    }
}

fn next_call() {
    let ns = fed::next_counts::<22>();
    let xs = fed::next_numbers::<57>();
    lend(&ns, &xs);
}

fn main() {
    fed::each_call(next_call);
}
