// Prints the five rules, the order choice over a grid of wishes, and some log sums, every bit, for comparison with the Rust.
#![tactic(auto)]

use quadrature::{Decline, Order};

// The order chosen, or 0 where there is none.
fn put_choice(choice: Result<Order, Decline>) {
    match choice {
        Ok(order) => text::put_count(quadrature::order_size(order) as u64),
        Err(_) => text::put_count(0),
    }
}

// The rule of an order: its nodes, then its weights.
fn rule(order: Order) {
    let rule = quadrature::gh_rule(order);
    text::put_word(b"rule");
    text::put_count(rule.size as u64);
    for (node, weight) in rule.nodes.iter().zip(&rule.weights) {
        text::put_double(*node);
        text::put_double(*weight);
    }
    text::end_line();
}

// What a number names: its rule, or a line that there is none.
fn number(n: usize) {
    match quadrature::order_of(n) {
        Some(order) => rule(order),
        None => {
            text::put_word(b"none");
            text::put_count(n as u64);
            text::end_line();
        }
    }
}

fn numbers() {
    for n in 0..14 {
        number(n);
    }
}

// The order of a wish; with k effects a group, k from 0 to 20; with q effects at once, q from 0 to 9.
fn wish(w: usize) {
    text::put_word(b"wish");
    text::put_count(w as u64);
    put_choice(quadrature::resolve_gh_order(w));
    products(w);
    joints(w);
    text::end_line();
}

fn products(w: usize) {
    for k in 0..21 {
        put_choice(quadrature::resolve_gh_order_product(w, k));
    }
}

fn joints(w: usize) {
    for q in 0..10 {
        put_choice(quadrature::resolve_gh_order_joint(w, q));
    }
}

fn wishes() {
    for w in 0..14 {
        wish(w);
    }
    wish(31);
}

fn log_sum(xs: &[f64]) {
    text::put_word(b"log_sum");
    text::put_double(quadrature::log_sum_exp(xs));
    text::end_line();
}

// Ordinary lists, from none to six numbers.
fn ordinary() {
    let some = [-1.5, 0.25, 3.0, 2.999, -700.0, 0.1];
    for n in 0..7 {
        log_sum(&some[..n]);
    }
}

// Far below zero, far above, and zeros.
fn extreme() {
    log_sum(&[-1000.0, -1000.5, -1003.0]);
    log_sum(&[1e300, 1e300]);
    log_sum(&[-0.0]);
    log_sum(&[0.0, -0.0]);
}

// NaN and -infinity only, or a +infinity: -infinity.
fn no_number(nan: f64, inf: f64) {
    log_sum(&[nan, -inf]);
    log_sum(&[nan]);
    log_sum(&[-inf, -inf]);
    log_sum(&[1.0, inf]);
    log_sum(&[inf, nan]);
}

// A NaN beside numbers: NaN; a -infinity beside them adds nothing.
fn beside_numbers(nan: f64, inf: f64) {
    log_sum(&[1.0, nan, 2.0]);
    log_sum(&[nan, -3.0]);
    log_sum(&[-inf, -3.0, -inf]);
}

fn main() {
    let nan = 0.0 / 0.0;
    let inf = base::infinity();
    numbers();
    wishes();
    ordinary();
    extreme();
    no_number(nan, inf);
    beside_numbers(nan, inf);
}
