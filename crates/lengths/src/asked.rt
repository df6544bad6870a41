// The lengths of the work buffers that a caller must lend; 0 where the sizes are not carried.
ghost use Rattle.std.specs.Prelude.{◌≡◌};
ghost use Rattle.model.specs.Shape.{within};
ghost use Rattle.lengths.specs.Asked.{rows_asked, matrices_asked};

// From 1 to most.
pub fn in_range(most: usize, k: usize) -> bool
    ensures { result ≡ within 1 most k }
{
    (1..=most).contains(&k)
}

#[tactic(auto, unfolding(crate::specs::Asked::when_in))]
pub fn rows_asked(n: usize) -> usize
    ensures { result ≡ rows_asked n }
{
    if in_range(512, n) {
        layout::rows_length(n)
    } else {
        0
    }
}

#[tactic(auto, unfolding(crate::specs::Asked::when_in))]
pub fn matrices_asked(p: usize, q: usize) -> usize
    ensures { result ≡ matrices_asked p q }
{
    if in_range(16, p) && in_range(32, q) {
        layout::matrices_length(p, q)
    } else {
        0
    }
}
