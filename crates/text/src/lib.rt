// How the programs write numbers: a double is its bit pattern in sixteen upper-case hexadecimal digits, a count is decimal.
#![tactic(auto)]

mod specials;

ghost use Rattle.std.specs.Prelude.{◌≡◌, ◌<◌, ◌≤◌, length};
ghost use Rattle.text.specs.Hex.{hex_digit, hex_digits};

pub use specials::{SPECIALS, each_special, special};

// The digit d as a byte.
fn hex_digit(d: u64) -> u8
    requires { d < 16 }
    ensures { result ≡ hex_digit d }
{
    b"0123456789ABCDEF"[d as usize]
}

// The sixteen digits of n, the highest first.
pub fn hex16(n: u64) -> [u8; 16]
    ensures { result ≡ hex_digits 16 n }
{
    let mut out = [0u8; 16];
    let mut rest = n;
    for i in (0..16).rev() {
        out[i] = hex_digit(rest % 16);
        rest /= 16;
    }
    out
}

// A word on standard output.
pub fn put_word(word: &[u8]) {
    io::write_all(1, word);
}

// A blank and the digits of x.
pub fn put_double(x: f64) {
    io::write_all(1, b" ");
    let digits = hex16(base::pattern(x));
    io::write_all(1, &digits);
}

// A blank and n.
pub fn put_count(n: u64) {
    io::write_all(1, b" ");
    io::print_decimal(1, n);
}

// A blank and 1 or 0.
pub fn put_test(t: bool) {
    put_count(u64::from(t));
}

// The end of a line.
pub fn end_line() {
    io::write_all(1, b"\n");
}

// The first n numbers, behind a word, on a line of their own.
pub fn put_list(word: &[u8], xs: &[f64], n: usize)
    requires { n ≤ length xs.now }
{
    put_word(word);
    for x in &xs[..n] {
        put_double(*x);
    }
    end_line();
}
