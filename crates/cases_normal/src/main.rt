// Runs norm_cdf, norm_pdf and norm_quantile on special arguments and on fed ones, and prints every bit: the argument and the three values.
#![tactic(auto)]

fn line(x: f64) {
    text::put_word(b"at");
    text::put_double(x);
    text::put_double(normal::norm_cdf(x));
    text::put_double(normal::norm_pdf(x));
    text::put_double(normal::norm_quantile(x));
    text::end_line();
}

// tools/cases/normal.py feeds the arguments of the test, tools/accuracy those whose distance is measured.
fn main() {
    text::each_special(line);
    fed::each_number(1000000, line);
}
