// The doubles that the test programs try before any other.
ghost use Rattle.std.specs.Prelude.{◌≡◌};
ghost use Rattle.text.specs.Specials.{special_of};

// How many they are.
pub const SPECIALS: usize = 24;

// NaN; the infinities, zeros, smallest and largest subnormals, smallest normals and E, of both signs; 1 - E; 1, 2, pi and MAX, of both signs;
// last two more NaNs.
static PATTERNS: [u64; SPECIALS] = [
    0x7ff8_0000_0000_0000,
    0x7ff0_0000_0000_0000,
    0xfff0_0000_0000_0000,
    0x0000_0000_0000_0000,
    0x8000_0000_0000_0000,
    0x0000_0000_0000_0001,
    0x8000_0000_0000_0001,
    0x000f_ffff_ffff_ffff,
    0x800f_ffff_ffff_ffff,
    0x0010_0000_0000_0000,
    0x8010_0000_0000_0000,
    0x3cb0_0000_0000_0000,
    0xbcb0_0000_0000_0000,
    0x3fef_ffff_ffff_fffe,
    0x3ff0_0000_0000_0000,
    0xbff0_0000_0000_0000,
    0x4000_0000_0000_0000,
    0xc000_0000_0000_0000,
    0x4009_21fb_5444_2d18,
    0xc009_21fb_5444_2d18,
    0x7fef_ffff_ffff_ffff,
    0xffef_ffff_ffff_ffff,
    0x7ff0_0000_0000_0001,
    0xffff_ffff_ffff_ffff,
];

// The i-th of them; +0.0 past the last.
#[tactic(auto, unfolding(crate::specs::Specials::special_of, crate::specs::Specials::special_bits))]
pub fn special(i: usize) -> f64
    ensures { result ≡ special_of i }
{
    base::double(PATTERNS.get(i).copied().unwrap_or(0))
}

// `f` at each of them.
pub fn each_special<F: Fn(f64)>(f: F)
    requires { F.IsAlwaysCallable f }
{
    for i in 0..SPECIALS {
        f(special(i));
    }
}
