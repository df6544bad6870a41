// Asks the table of refusals of the calls on standard input: a call that is accepted, each fault by itself, and of two faults at once the first of the table.
// Prints the number of each answer; of an accepted call also the codes of its family and link. A call is fed as tools/cases/table.py says.
#![tactic(auto)]

use family::{CarriedFamily, CarriedLink};
use model::{Inputs, Refusal, Settings, Shape};
use table::LentLengths;

fn put_verdict(verdict: Result<(CarriedFamily, CarriedLink), Refusal>) {
    match verdict {
        Ok((family, link)) => {
            text::put_count(0);
            text::put_count(family as u64);
            text::put_count(model::link_code(family::link_of(link)) as u64);
        }
        Err(refusal) => text::put_count(model::refusal_number(refusal) as u64),
    }
    text::end_line();
}

// The plain numbers of the call.
fn next_settings() -> Settings {
    let family = fed::family();
    let link = fed::link();
    let limit = fed::limit();
    Settings {
        family,
        link,
        n_agq: 1,
        limit,
        n: fed::count(),
        p: fed::count(),
        rows: fed::count(),
        entries: fed::count(),
        start: fed::start(),
    }
}

// One block, and behind it numbers that nothing may look at.
fn next_shape() -> Shape {
    Shape {
        count: 1,
        m: [fed::count(), 9, 0, 0, 0, 0, 0, 0],
        k: [fed::count(), 9, 0, 0, 0, 0, 0, 0],
    }
}

fn next_lent() -> LentLengths {
    LentLengths {
        beta: fed::count(),
        se: fed::count(),
        z: fed::count(),
        u: fed::count(),
        b: fed::count(),
        mu: fed::count(),
        eta: fed::count(),
        residual: fed::count(),
        v: fed::count(),
        rows: fed::count(),
        matrices: fed::count(),
        terms: fed::count(),
    }
}

// The lists are parts of what was read.
fn ask(ns: &[usize], xs: &[f64]) {
    put_verdict(table::verdict_of(
        fed::count(),
        next_settings(),
        next_shape(),
        &Inputs {
            theta: fed::part(xs, 0),
            y: fed::part(xs, 2),
            weights: fed::part(xs, 6),
            offset: fed::part(xs, 10),
            x: fed::part(xs, 14),
            starts: fed::part(ns, 0),
            columns: fed::part(ns, 4),
            values: fed::part(xs, 21),
        },
        next_lent(),
    ));
}

fn next_call() {
    let ns = fed::next_counts::<8>();
    let xs = fed::next_numbers::<25>();
    ask(&ns, &xs);
}

fn main() {
    fed::each_call(next_call);
}
