// Row by row, the lower triangle L of size k times z.
ghost use Rattle.std.specs.Prelude.{◌≡◌, true, ◌*◌, ◌≤◌, ◌<◌, length};
ghost use Rattle.base.specs.Sum.{all_to, finite_at};
ghost use Rattle.spread.specs.Spread.{spread_at};

// Entry i of L z. Past the diagonal a finite z would add zeros to a sum that is not -0.0, so the sum ends there.
#[tactic(auto, using(crate::proofs::Lower::to_the_diagonal))]
pub fn spread_at(l: &[f64], k: usize, z: &[f64], i: usize) -> f64
    requires { (i < k) × (k * k ≤ length l.now) × (k ≤ length z.now) × (all_to k (finite_at z.now) ≡ true) }
    ensures { result ≡ spread_at k l.now z.now i }
{
    let o = base::offset(i, k, k);
    base::dot_from(l, o, z, i + 1)
}
