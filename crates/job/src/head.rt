// The header of a job and its blocks, read by the bit reader one field behind another; what lies past the end is 0.
ghost use Rattle.std.specs.Prelude.{◌≡◌, ◌<◌, ◌^◌};
ghost use Rattle.job.specs.Heads.{head_of, piece_of};

use bits::BitReader;

// The fields of the header.
#[derive(Clone, Copy)]
pub struct Head {
    pub version: usize,
    pub family: usize,
    pub link: usize,
    pub weighted: usize,
    pub shifted: usize,
    pub n_agq: usize,
    pub n: usize,
    pub p: usize,
    pub blocks: usize,
    pub limit: usize,
}

// The fields of a block.
#[derive(Clone, Copy)]
pub struct Piece {
    pub m: usize,
    pub k: usize,
    pub zeros: usize,
}

// The header, from bit 0 on.
pub fn head_in(s: &[u8]) -> Head
    ensures { result ≡ head_of s.now }
{
    let mut reader = BitReader::new(s, 0);
    Head {
        version: reader.take(4),
        family: reader.take(2),
        link: reader.take(3),
        weighted: reader.take(1),
        shifted: reader.take(1),
        n_agq: reader.take(5),
        n: reader.take(13),
        p: reader.take(5),
        blocks: reader.take(4),
        limit: reader.take(10),
    }
}

// A block, from bit `at` on.
pub fn piece_in(s: &[u8], at: usize) -> Piece
    requires { at < 2 ^ 31 }
    ensures { result ≡ piece_of s.now at }
{
    let mut reader = BitReader::new(s, at);
    Piece {
        m: reader.take(7),
        k: reader.take(4),
        zeros: reader.take(5),
    }
}
