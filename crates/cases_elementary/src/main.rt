// Runs the elementary functions that elementary_c hands to C on special arguments, on drawn ones and on fed ones, and prints every bit: the argument, sqrt, exp, ln, ln_1p, exp_m1, ln_gamma, norm_cdf, norm_pdf, norm_quantile.
#![tactic(auto)]

ghost use Rattle.std.specs.Prelude.{◌+◌, ◌<◌, ◌≤◌};

// Subnormals; the neighbours of -1, 1 and 2; then where the algorithms' branches begin, with their neighbours.
const BRANCHES: [u64; 60] = [
    0x0000_0000_0000_0003,
    0x0008_0000_0000_0001,
    0xbff0_0000_0000_0001,
    0xbfef_ffff_ffff_ffff,
    0xbfe0_0000_0000_0000,
    0x3fef_ffff_ffff_ffff,
    0x3ff0_0000_0000_0001,
    0x3fff_ffff_ffff_ffff,
    0x400f_ffff_ffff_ffff,
    0x4010_0000_0000_0000,
    0x4022_0000_0000_0000,
    0x3c8f_ffff_ffff_ffff,
    0x3c90_0000_0000_0000,
    0xbc90_0000_0000_0000,
    0x3c9f_ffff_ffff_ffff,
    0x3ca0_0000_0000_0000,
    0xbca0_0000_0000_0000,
    0x3fd2_bec4_ffff_ffff,
    0xbfd2_bec4_ffff_ffff,
    0xbfd2_bec5_0000_0000,
    0x3fd6_2e42_ffff_ffff,
    0x3fd6_2e43_0000_0000,
    0xbfd6_2e42_ffff_ffff,
    0xbfd6_2e43_0000_0000,
    0x3fda_8279_ffff_ffff,
    0x3fda_827a_0000_0000,
    0x3ff0_a2b1_ffff_ffff,
    0x3ff0_a2b2_0000_0000,
    0xbff0_a2b1_ffff_ffff,
    0xbff0_a2b2_0000_0000,
    0x4006_a09d_ffff_ffff,
    0x4006_a09e_0000_0000,
    0x402b_0000_0000_0000,
    0x402c_0000_0000_0000,
    0x4043_6879_ffff_ffff,
    0x4043_687a_0000_0000,
    0xc043_6879_ffff_ffff,
    0xc043_687a_0000_0000,
    0x4086_28b7_6e3a_7b61,
    0x4086_2e42_fefa_39ef,
    0x4086_2e42_fefa_39f0,
    0x4346_a09d_ffff_ffff,
    0x4346_a09e_0000_0000,
    0xc086_2e42_fefa_39ef,
    0x407f_ffff_ffff_ffff,
    0x4080_0000_0000_0000,
    0xc080_0000_0000_0000,
    0x4090_0000_0000_0000,
    0xc090_0000_0000_0000,
    0xc086_232b_dd7a_bcd2,
    0xc087_4385_446d_71c3,
    0xc087_4910_d52d_3051,
    0xc087_4910_d52d_3052,
    0x3fed_ffff_ffff_ffff,
    0x3fee_0000_0000_0000,
    0x3ff1_08ff_ffff_ffff,
    0x3ff1_0900_0000_0000,
    0x3fe5_ffff_ffff_ffff,
    0x3fe6_0000_0000_0000,
    0xbfd0_0000_0000_0000,
];

fn line(x: f64) {
    text::put_word(b"at");
    text::put_double(x);
    text::put_double(root::sqrt(x));
    text::put_double(elementary::exp(x));
    text::put_double(elementary::ln(x));
    text::put_double(elementary::ln_1p(x));
    text::put_double(elementary::exp_m1(x));
    text::put_double(log_gamma::ln_gamma(x));
    text::put_double(normal::norm_cdf(x));
    text::put_double(normal::norm_pdf(x));
    text::put_double(normal::norm_quantile(x));
    text::end_line();
}

fn branches() {
    for pattern in BRANCHES {
        line(base::double(pattern));
    }
}

// The sign and the digits of w, and one of `count` exponents' fields from `low` on.
fn drawn(w: u64, low: u64, count: u64) -> f64
    requires { (0 < count) × (low + count ≤ 2047) }
{
    let sign = w / 0x8000_0000_0000_0000 * 0x8000_0000_0000_0000;
    let field = low + w / 0x10_0000_0000_0000 % 2048 % count;
    base::double(sign + field * 0x10_0000_0000_0000 + w % 0x10_0000_0000_0000)
}

// 200 arguments, evenly spread: multiples of 2^64 over the golden ratio.
fn draw(low: u64, count: u64)
    requires { (0 < count) × (low + count ≤ 2047) }
{
    let mut w: u64 = 0;
    for _ in 0..200 {
        w = std::num::wrapping_add_u64(w, 0x9e37_79b9_7f4a_7c15);
        line(drawn(w, low, count));
    }
}

// All sizes; 2^-60 to 2^60; 2^-10 to 2^10; then the fed arguments, of which some meet each row of the two tables so that a wrong entry is seen
// (tools/cases/rows.py).
fn main() {
    text::each_special(line);
    branches();
    draw(0, 2047);
    draw(963, 121);
    draw(1013, 20);
    fed::each_number(1000, line);
}
