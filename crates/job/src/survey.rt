// Everything that is found of a job before its numbers are read: each byte is walked once.
ghost use Rattle.std.specs.Prelude.{◌≡◌, ◌≤◌, length};
ghost use Rattle.job.specs.Heads.{head_of};
ghost use Rattle.job.specs.Faults.{numbers_fault};
ghost use Rattle.job.specs.Survey.{survey_by, survey_of};

use crate::faults::{Fault, back_fault, demand, front_fault};
use crate::head::{Head, head_in};
use crate::sizes::{Counts, Places, blocks_at, counts_in, places_in, shape_in, sizes_fit};
use model::Shape;

// What a job without a fault says of itself.
#[derive(Clone, Copy)]
pub struct Survey {
    pub head: Head,
    pub shape: Shape,
    pub counts: Counts,
    pub places: Places,
}

// The job past its blocks: the sizes, the doubles, the rows of Z', the end.
fn survey_back(s: &[u8], head: Head) -> Result<Survey, Fault>
    requires { (length s.now ≤ 65536) × (head ≡ head_of s.now) }
    ensures { result ≡ survey_by (numbers_fault s.now) s.now }
{
    let shape = shape_in(s, head);
    demand(sizes_fit(head, shape), 1, 0)?;
    let counts = counts_in(head, shape);
    let places = places_in(blocks_at(s) + 2 * head.blocks, counts);
    back_fault(s, places.z, counts.q)?;
    Ok(Survey {
        head,
        shape,
        counts,
        places,
    })
}

// What is found of a job, or its first fault from left to right.
pub fn survey_in(s: &[u8]) -> Result<Survey, Fault>
    ensures { result ≡ survey_of s.now }
{
    demand(s.len() <= 65536, 25, 65536)?;
    let head = head_in(s);
    front_fault(s, head)?;
    survey_back(s, head)
}
