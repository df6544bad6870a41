// Runs ln_gamma on special arguments and on fed ones, and prints every bit: the argument and the value.
#![tactic(auto)]

fn line(x: f64) {
    text::put_word(b"at");
    text::put_double(x);
    text::put_double(log_gamma::ln_gamma(x));
    text::end_line();
}

// tools/cases/log_gamma.py feeds the arguments of the test, tools/accuracy those whose distance is measured.
fn main() {
    text::each_special(line);
    fed::each_number(1000000, line);
}
