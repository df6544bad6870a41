// Bits of a byte slice, most significant first, 0 past its end: what stands at a position, and the record that holds the slice and a position and is moved on over its fields.
// The record's two methods are thin: `take` leaves the work to `field_at`.
#![tactic(auto)]

ghost use Rattle.std.specs.Prelude.{◌≡◌, ◌+◌, ◌*◌, ◌<◌, ◌≤◌, ◌^◌, length};
ghost use Rattle.base.specs.Sum.{◌!!◌};
ghost use Rattle.bits.specs.Bits.{bits_of, double_of, Near};

// A job's bytes, and how many of its bits were passed.
#[derive(Clone, Copy)]
pub struct BitReader<'a> {
    pub src: &'a [u8],
    pub at: usize,
}

// Byte i as a number, 0 past the end.
fn byte_or(s: &[u8], i: usize) -> u64
    ensures { (result ≡ (s.now !! i)) × (result < 256) }
{
    s.get(i).map_or(0, |b| u64::from(*b))
}

// The number that `width` bits from `at` on make, at most 16: they lie in three bytes.
pub fn field_at(s: &[u8], at: usize, width: usize) -> usize
    requires { Near at width }
    ensures { (result ≡ bits_of s.now at width) × (result < 2 ^ width) }
{
    let i = at / 8;
    let a = byte_or(s, i);
    let b = a * 256 + byte_or(s, i + 1);
    let c = b * 256 + byte_or(s, i + 2);
    let cut = c >> (24 - at % 8 - width);
    (cut % (1 << width)) as usize
}

impl<'a> BitReader<'a> {
    // A reader of these bytes that stands at bit `at`.
    pub fn new(src: &'a [u8], at: usize) -> BitReader<'a>
        ensures { (result.src ≡ src.entry) × (result.at ≡ at) }
    {
        BitReader { src, at }
    }

    // The number that the next `width` bits make; the reader then stands behind them.
    pub fn take(&mut self, width: usize) -> usize
        requires { Near self.old.at width }
        ensures { (result ≡ bits_of self.old.src.now self.old.at width) × (self.new.src ≡ self.old.src) × (self.new.at ≡ self.old.at + width) }
    {
        let field = field_at(self.src, self.at, width);
        self.at += width;
        field
    }
}

// The number that the eight bytes from byte p on make, the first counting most.
pub fn word_at(s: &[u8], p: usize) -> u64
    requires { p + 8 ≤ length s.now }
    ensures { result ≡ bits_of s.now (8 * p) 64 }
{
    u64::from_be_bytes(*s[p..].first_chunk().unwrap())
}

// The double in the eight bytes from byte p on; every pattern is read, a NaN's as NaN.
#[tactic(auto, unfolding(crate::specs::Bits::double_of))]
pub fn double_at(s: &[u8], p: usize) -> f64
    requires { p + 8 ≤ length s.now }
    ensures { result ≡ double_of s.now p }
{
    base::double(word_at(s, p))
}
