// Calls `blocks_coded::fit_coded`, which `blocks_c` hands to C, with lists of none, one and two blocks. Prints the answer, and what stands in every array.
// Every array holds 9.25 before a call, and a call is lent the beginnings of the arrays: what stands behind must stay. A call is fed as
// tools/cases/blocks_c.py says.
#![tactic(auto)]

use blocks::Block;
use blocks_coded::{CodedSettings, PlainAnswer};
use model::Inputs;

// The fit over the list of the first `count` blocks; of a count past two, over what is left of it by 3. A list is lent here alone: no other function has a
// `&[Block]`.
fn call(
    coded: CodedSettings,
    count: usize,
    one: Block,
    two: Block,
    lists: &Inputs<'_>,
    beta: &mut [f64],
    se: &mut [f64],
    z: &mut [f64],
    u: &mut [f64],
    b: &mut [f64],
    mu: &mut [f64],
    eta: &mut [f64],
    residual: &mut [f64],
    v: &mut [f64],
    rows: &mut [f64],
    matrices: &mut [f64],
    terms: &mut [f64],
) -> PlainAnswer {
    let list = [one, two];
    let n = count % 3;
    blocks_coded::fit_coded(
        coded,
        &list[..n],
        lists.theta,
        lists.y,
        lists.weights,
        lists.offset,
        lists.x,
        lists.starts,
        lists.columns,
        lists.values,
        beta,
        se,
        z,
        u,
        b,
        mu,
        eta,
        residual,
        v,
        rows,
        matrices,
        terms,
    )
}

// A result, and what stands behind it.
fn put_result(word: &[u8], xs: &[f64]) {
    text::put_list(word, xs, xs.len());
}

fn put_results(
    beta: &[f64],
    se: &[f64],
    z: &[f64],
    u: &[f64],
    b: &[f64],
    mu: &[f64],
    eta: &[f64],
    residual: &[f64],
    v: &[f64],
) {
    put_result(b"beta", beta);
    put_result(b"se", se);
    put_result(b"z", z);
    put_result(b"u", u);
    put_result(b"b", b);
    put_result(b"mu", mu);
    put_result(b"eta", eta);
    put_result(b"residual", residual);
    put_result(b"v", v);
}

fn put_works(rows: &[f64], matrices: &[f64], terms: &[f64]) {
    fed::put_work(b"rows", rows);
    fed::put_work(b" matrices", matrices);
    fed::put_work(b" terms", terms);
    text::end_line();
}

fn put_counts(a: PlainAnswer) {
    fed::put_named(b":", a.number);
    fed::put_named(b" order", a.order);
    fed::put_named(b" disp", a.flag);
    fed::put_named(b" iters", a.iterations);
    fed::put_named(b" fits", a.fits);
    fed::put_named(b" solves", a.solves);
    fed::put_named(b" tries", a.tries);
    fed::put_named(b" points", a.points);
    fed::put_named(b" why", a.why);
    fed::put_named(b" eta", a.eta);
    fed::put_named(b" mean", a.mean);
    fed::put_named(b" pwrss", a.pwrss);
    fed::put_named(b" ok", a.ok);
}

fn put_answer(a: PlainAnswer) {
    put_counts(a);
    text::put_word(b" deviance");
    text::put_double(a.deviance);
    text::put_word(b" phi");
    text::put_double(a.phi);
    text::end_line();
}

// The plain numbers of the call.
fn next_settings() -> CodedSettings {
    CodedSettings {
        family: fed::count(),
        link: fed::count(),
        n_agq: fed::count(),
        limit: fed::count(),
        n: fed::count(),
        p: fed::count(),
        rows: fed::count(),
        entries: fed::count(),
        start: fed::count(),
    }
}

fn next_block() -> Block {
    Block {
        m: fed::count(),
        k: fed::count(),
    }
}

// Fills the arrays, calls and prints. The lists are parts of what was read.
fn lend(ns: &[usize], xs: &[f64]) {
    let mut beta = [9.25; 3];
    let mut se = [9.25; 3];
    let mut z = [9.25; 3];
    let mut u = [9.25; 5];
    let mut b = [9.25; 5];
    let mut mu = [9.25; 5];
    let mut eta = [9.25; 5];
    let mut residual = [9.25; 5];
    let mut v = [9.25; 5];
    let mut rows = [9.25; 72];
    let mut matrices = [9.25; 128];
    let mut terms = [9.25; 7008];
    put_answer(call(
        next_settings(),
        fed::count(),
        next_block(),
        next_block(),
        &Inputs {
            theta: fed::part(xs, 0),
            y: fed::part(xs, 4),
            weights: fed::part(xs, 9),
            offset: fed::part(xs, 14),
            x: fed::part(xs, 19),
            starts: fed::part(ns, 0),
            columns: fed::part(ns, 6),
            values: fed::part(xs, 28),
        },
        fed::lent(&mut beta),
        fed::lent(&mut se),
        fed::lent(&mut z),
        fed::lent(&mut u),
        fed::lent(&mut b),
        fed::lent(&mut mu),
        fed::lent(&mut eta),
        fed::lent(&mut residual),
        fed::lent(&mut v),
        fed::lent(&mut rows),
        fed::lent(&mut matrices),
        fed::lent(&mut terms),
    ));
    put_results(&beta, &se, &z, &u, &b, &mu, &eta, &residual, &v);
    put_works(&rows, &matrices, &terms);
}

fn next_call() {
    let ns = fed::next_counts::<19>();
    let xs = fed::next_numbers::<41>();
    lend(&ns, &xs);
}

fn main() {
    fed::each_call(next_call);
}
