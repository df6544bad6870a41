// What exp_m1 and ln_1p share: ln 2 in two parts, the whole part of a number, powers of two.
ghost use Rattle.std.specs.Prelude.{◌≡◌};
ghost use Rattle.elementary.specs.Parts.{whole_of, power_of, inverse_power_of};

use base::double;

// The upper 32 bits of ln 2, so that its product with a small whole number is exact.
pub const LN2_HI: f64 = 6.93147180369123816490e-01;

// What LN2_HI leaves of ln 2.
pub const LN2_LO: f64 = 1.90821492927058770002e-10;

// The whole part of z; 0 where z is no number from -1 to 2^64.
#[tactic(auto, unfolding(crate::specs::Parts::whole_of))]
pub fn whole(z: f64) -> u64
    ensures { result ≡ whole_of z }
{
    if z > -1.0 && z < 18446744073709551616.0 {
        std::num::truncating_f64_to_u64(z)
    } else {
        0
    }
}

// 2^m, for m below 1024.
#[tactic(auto, unfolding(crate::specs::Parts::power_of))]
pub fn power(m: u64) -> f64
    ensures { result ≡ power_of m }
{
    double(0x3ff0_0000_0000_0000 + m % 1024 * 0x10_0000_0000_0000)
}

// 2^-m, for m below 1023.
#[tactic(auto, unfolding(crate::specs::Parts::inverse_power_of))]
pub fn inverse_power(m: u64) -> f64
    ensures { result ≡ inverse_power_of m }
{
    double(0x3ff0_0000_0000_0000 - m % 1024 * 0x10_0000_0000_0000)
}
