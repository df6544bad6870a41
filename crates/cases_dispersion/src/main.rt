// Runs the numbers of the dispersion loop, and the loop itself over inner fits whose deviance sums are given, and prints every bit.
#![tactic(auto)]

// The sum of the weights, at least 1; 1 for each where there are none.
fn count(weights: &[f64], n: usize) {
    text::put_word(b"count");
    text::put_double(dispersion::effective_n(weights, n));
    text::end_line();
}

// What follows one round.
fn round(effective: f64, phi: f64, sum: f64) {
    text::put_word(b"round");
    match dispersion::round_of(effective, phi, sum) {
        None => text::put_word(b" settled"),
        Some(next) => text::put_double(next),
    }
    text::end_line();
}

// After how many rounds the loop settled, and the phi of its last inner fit.
fn put_end(settled: bool, rounds: u64, phi: f64) {
    text::put_word(b"rounds");
    text::put_test(settled);
    text::put_count(rounds);
    text::put_double(phi);
    text::end_line();
}

// The loop over inner fits whose deviances sum to the first number and the second in turn.
fn rounds(effective: f64, first: f64, second: f64) {
    let mut phi = 1.0;
    let mut sum = first;
    let mut other = second;
    for k in 0..240 {
        let Some(next) = dispersion::round_of(effective, phi, sum) else {
            put_end(true, k, phi);
            return;
        };
        phi = next;
        std::mem::swap(&mut sum, &mut other);
    }
    put_end(false, 240, phi);
}

fn counts() {
    count(&[], 0);
    count(&[], 5);
    count(&[0.1, 0.2, 0.3], 3);
    count(&[1e16, 1.0, -1e16], 3);
    count(&[0.7, 0.6], 4);
    count(&[-2.0, 0.5], 2);
    count(&[0.0 / 0.0, 3.0], 2);
    count(&[1.0 / 0.0], 1);
}

// Sums and phis that cannot be used.
fn ends() {
    let nan = 0.0 / 0.0;
    let inf = 1.0 / 0.0;
    round(3.0, 1.0, nan);
    round(3.0, 1.0, inf);
    round(3.0, 1.0, -inf);
    round(3.0, 1.0, 0.0);
    round(3.0, 1.0, -0.0);
    round(3.0, 1.0, -1.0);
    round(3.0, nan, 1.0);
    round(3.0, inf, 1.0);
    round(3.0, 0.0, 1.0);
}

// Near and far from rest, and below E.
fn steps() {
    round(3.0, 1.0, 3.0);
    round(3.0, 1.0, 3.00000003);
    round(3.0, 1.0, 3.00000002);
    round(3.0, 1.0, 2.0);
    round(3.0, 0.37, 12.5);
    round(1.0, 1.0, 1e-300);
    round(1.0, 1e-300, 1e-300);
    round(1e300, 1.0, 1e-300);
    round(0.0, 2.0, 5.0);
    round(7.25, 1e200, 1e-9);
}

fn main() {
    counts();
    ends();
    steps();
    rounds(3.0, 3.0, 3.0);
    rounds(3.0, 6.0, 6.0);
    rounds(11.0, 0.025, 0.025);
    rounds(3.0, 0.1, 1e-30);
    rounds(3.0, 4.0, 0.0);
    rounds(1.0, 2.0, 3.0);
    rounds(1.0, 1e300, 1e-300);
}
