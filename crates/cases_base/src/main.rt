// Runs the functions of `base` on special values and prints every bit, one line a call.
#![tactic(auto)]

// The tests and the sign of one number, and what the clamps leave of it.
fn one(x: f64) {
    text::put_word(b"one");
    text::put_double(x);
    text::put_test(base::is_nan(x));
    text::put_test(base::is_finite(x));
    text::put_test(base::is_infinite(x));
    text::put_test(base::is_sign_negative(x));
    text::put_double(base::abs(x));
    text::put_double(base::clamp(base::EPSILON, 1.0 - base::EPSILON, x));
    text::put_double(base::clamp(-1.0, base::infinity(), x));
    text::end_line();
}

fn two(a: f64, b: f64) {
    text::put_word(b"max");
    text::put_double(a);
    text::put_double(b);
    text::put_double(base::max(a, b));
    text::end_line();
}

// Each special value alone, then with each.
fn numbers() {
    text::each_special(|a| {
        one(a);
        text::each_special(|b| two(a, b));
    });
}

// Sums whose last bits depend on their order, and on where they begin.
fn sums() {
    let a = [1.0, 1e16, -1e16, 0.1, 0.7, -0.0];
    let b = [3.0, 1.0, 1.0, 0.3, -0.9, 5.0];
    text::put_word(b"dot");
    text::put_double(base::dot(&a, &b, 0));
    text::put_double(base::dot(&a, &b, 3));
    text::put_double(base::dot(&a, &b, 5));
    text::put_double(base::dot(&a, &b, 6));
    text::put_double(base::dot_from(&a, 5, &b, 1));
    text::put_double(base::dot_from(&a, 1, &b, 4));
    text::end_line();
}

// Four numbers.
fn put_row(a: &[f64; 4]) {
    text::put_list(b"", a, 4);
}

// What is written, and that the rest stays.
fn copies() {
    let mut out = [9.0, 8.0, 7.0, 6.0];
    base::copy(&[1.5, -0.0, 0.0 / 0.0, 4.0], &mut out, 3);
    text::put_word(b"copy");
    put_row(&out);
}

fn wipes() {
    let mut out = [9.0, 8.0, 0.0 / 0.0, 6.0];
    base::wipe(&mut out, 2);
    text::put_word(b"wipe");
    put_row(&out);
}

fn finites() {
    let a = [1.5, -0.0, 0.0 / 0.0, 4.0];
    text::put_word(b"finite");
    text::put_test(base::all_finite(&a, 2));
    text::put_test(base::all_finite(&a, 3));
    text::put_test(base::all_finite(&a, 0));
    text::end_line();
}

// Number 6: three rows of columns 1 3, none, 0 2 3.
fn good_rows() {
    let starts = [0, 2, 2, 5];
    let columns = [1, 3, 0, 2, 3];
    text::put_word(b"rows");
    text::put_test(base::rows_ok(&starts, &columns, 3, 4));
    text::put_test(base::rows_ok(&starts, &columns, 3, 3));
    text::put_test(base::rows_ok(&starts, &columns, 2, 4));
    text::put_test(base::rows_ok(&[0, 5], &[0, 2, 4, 6, 8], 1, 9));
}

// A fault in the starts: another first, a fall, another last, too few.
fn bad_starts() {
    let columns = [1, 3, 0, 2, 3];
    text::put_test(base::rows_ok(&[1, 2, 2, 5], &columns, 3, 4));
    text::put_test(base::rows_ok(&[0, 3, 2, 5], &columns, 3, 4));
    text::put_test(base::rows_ok(&[0, 2, 2, 4], &columns, 3, 4));
    text::put_test(base::rows_ok(&[0], &columns, 0, 4));
}

// A fault in the columns: one that falls, one that stays.
fn bad_columns() {
    let starts = [0, 2, 2, 5];
    text::put_test(base::rows_ok(&starts, &[3, 1, 0, 2, 3], 3, 4));
    text::put_test(base::rows_ok(&starts, &[1, 3, 0, 2, 2], 3, 4));
    text::end_line();
}

fn main() {
    numbers();
    sums();
    copies();
    wipes();
    finites();
    good_rows();
    bad_starts();
    bad_columns();
}
