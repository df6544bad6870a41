// The faults of a job's parts, from left to right, in a walk over the bytes that writes nothing.
#![tactic(auto, unfolding(crate::specs::Faults::demand, crate::specs::Faults::first, crate::specs::Faults::is_sound, crate::specs::Faults::reaches, crate::specs::Faults::spare, crate::specs::Faults::common_fault, crate::specs::Faults::second_fault, crate::specs::Faults::head_fault, crate::specs::Faults::pair_fault, crate::specs::Faults::blocks_fault, crate::specs::Faults::entry_fault, crate::specs::Faults::entries_fault, crate::specs::Faults::row_fault, crate::specs::Faults::rows_fault))]

ghost use Rattle.std.specs.Prelude.{◌||◌, ◌&&◌, ◌≡◌, ◌+◌, ◌*◌, ◌≤◌, ◌<◌, not, eqb, ltb, length};
ghost use Rattle.job.specs.Format.{blocks, blocks_at};
ghost use Rattle.job.specs.Heads.{head_of};
ghost use Rattle.job.specs.Faults.{demand, ◌▹◌, is_sound, reaches, spare, common_fault, second_fault, head_fault, pair_fault, blocks_fault, entry_fault, entries_fault, row_fault, rows_fault};

use crate::head::Head;
use crate::sizes::blocks_at;

// What is wrong with a job: a refusal's number, under which document 01 has it printed, and its byte.
#[derive(Clone, Copy, Debug, PartialEq, Eq)]
pub struct Fault {
    pub number: u64,
    pub byte: usize,
}

// Whether the part that was looked at has no fault.
pub fn is_sound(found: Result<(), Fault>) -> bool
    ensures { result ≡ is_sound found }
{
    found.is_ok()
}

// A refusal at a byte, unless the test holds.
pub fn demand(holds: bool, number: u64, byte: usize) -> Result<(), Fault>
    ensures { result ≡ demand holds number byte }
{
    if holds {
        Ok(())
    } else {
        Err(Fault { number, byte })
    }
}

// The job goes on to bit `bits` at least.
fn reaches(s: &[u8], bits: usize) -> Result<(), Fault>
    requires { length s.now ≤ 65536 }
    ensures { result ≡ reaches s.now bits }
{
    let end = s.len();
    demand(bits <= end * 8, 20, end)
}

// The `width` bits from bit `at` on, which lie in one byte, are zero bits.
fn spare(s: &[u8], at: usize, width: usize) -> Result<(), Fault>
    requires { (at ≤ 40000000) × (width ≤ 16) }
    ensures { result ≡ spare s.now at width }
{
    demand(bits::field_at(s, at, width) == 0, 22, at / 8)
}

// Whether a version is one that is read.
fn known_version(version: usize) -> bool
    ensures { result ≡ eqb version 1 || eqb version 2 }
{
    version == 1 || version == 2
}

// Whether a limit is one that may be given, or is not given.
fn known_limit(limit: usize) -> bool
    ensures { result ≡ not (ltb 1000 limit && ltb limit 1023) }
{
    limit <= 1000 || 1023 <= limit
}

// The header's 48 bits: version, link and limit, each once its bits are there.
fn common_fault(s: &[u8], head: Head) -> Result<(), Fault>
    requires { (length s.now ≤ 65536) × (head ≡ head_of s.now) }
    ensures { result ≡ common_fault s.now }
{
    reaches(s, 4)?;
    demand(known_version(head.version), 21, 0)?;
    reaches(s, 9)?;
    demand(head.link < 7, 24, 0)?;
    reaches(s, 48)?;
    demand(known_limit(head.limit), 24, 4)
}

// The byte behind them in version 2: the last seven bits are zero bits.
fn second_fault(s: &[u8], head: Head) -> Result<(), Fault>
    requires { (length s.now ≤ 65536) × (head ≡ head_of s.now) }
    ensures { result ≡ second_fault s.now }
{
    if head.version == 2 {
        reaches(s, 56)?;
        spare(s, 49, 7)
    } else {
        Ok(())
    }
}

// The header.
fn head_fault(s: &[u8], head: Head) -> Result<(), Fault>
    requires { (length s.now ≤ 65536) × (head ≡ head_of s.now) }
    ensures { result ≡ head_fault s.now }
{
    common_fault(s, head)?;
    second_fault(s, head)
}

// Two bytes at p, the last `width` bits of which are zero bits: a block, a row's count, an entry's column.
fn pair_fault(s: &[u8], p: usize, width: usize) -> Result<(), Fault>
    requires { (length s.now ≤ 65536) × (p ≤ 4000000) × (width ≤ 16) }
    ensures { result ≡ pair_fault s.now p width }
{
    reaches(s, 8 * p + 16)?;
    spare(s, 8 * p + (16 - width), width)
}

// n blocks from byte p on.
fn blocks_fault(s: &[u8], p: usize, n: usize) -> Result<(), Fault>
    requires { (length s.now ≤ 65536) × (p ≤ 65536) × (n ≤ 15) }
    ensures { result ≡ blocks_fault s.now p n }
{
    for i in 0..n {
        pair_fault(s, p + 2 * i, 5)?;
    }
    Ok(())
}

// An entry of Z' at byte p: a column and a double.
fn entry_fault(s: &[u8], p: usize) -> Result<(), Fault>
    requires { (length s.now ≤ 65536) × (p ≤ 4000000) }
    ensures { result ≡ entry_fault s.now p }
{
    pair_fault(s, p, 3)?;
    reaches(s, 8 * p + 80)
}

// n entries from byte p on.
fn entries_fault(s: &[u8], p: usize, n: usize) -> Result<(), Fault>
    requires { (length s.now ≤ 65536) × (p ≤ 3000010) × (n < 8192) }
    ensures { result ≡ entries_fault s.now p n }
{
    for i in 0..n {
        entry_fault(s, p + 10 * i)?;
    }
    Ok(())
}

// The row of Z' at byte p.
fn row_fault(s: &[u8], p: usize) -> Result<(), Fault>
    requires { (length s.now ≤ 65536) × (p < 3000000) }
    ensures { result ≡ row_fault s.now p }
{
    pair_fault(s, p, 3)?;
    entries_fault(s, p + 2, bits::field_at(s, 8 * p, 13))
}

// n rows of Z' from byte p on, and then the end of the job.
fn rows_fault(s: &[u8], p: usize, n: usize) -> Result<(), Fault>
    requires { (length s.now ≤ 65536) × (p ≤ 100000) × (n ≤ 32) }
    ensures { result ≡ rows_fault s.now p n }
{
    let mut at = p;
    for i in 0..n {
        row_fault(s, at)?;
        at += 2 + 10 * bits::field_at(s, 8 * at, 13);
    }
    demand(s.len() <= at, 23, at)
}

// The header, and then its blocks.
pub fn front_fault(s: &[u8], head: Head) -> Result<(), Fault>
    requires { (length s.now ≤ 65536) × (head ≡ head_of s.now) }
    ensures { result ≡ head_fault s.now ▹ blocks_fault s.now (blocks_at s.now) (blocks s.now) }
{
    head_fault(s, head)?;
    blocks_fault(s, blocks_at(s), head.blocks)
}

// The doubles up to byte z, and then the q rows of Z'.
pub fn back_fault(s: &[u8], z: usize, q: usize) -> Result<(), Fault>
    requires { (length s.now ≤ 65536) × (z ≤ 100000) × (q ≤ 32) }
    ensures { result ≡ reaches s.now (8 * z) ▹ rows_fault s.now z q }
{
    reaches(s, 8 * z)?;
    rows_fault(s, z, q)
}
