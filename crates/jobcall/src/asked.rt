// The length of the buffer of results that a caller must lend; 0 where the sizes are not carried.
ghost use Rattle.std.specs.Prelude.{◌≡◌};
ghost use Rattle.jobcall.specs.Results.{results_asked};

use jobfit::results_length;
use lengths::in_range;

pub fn results_asked(n: usize, p: usize, q: usize) -> usize
    ensures { result ≡ results_asked n p q }
{
    if in_range(512, n) {
        if in_range(16, p) {
            if in_range(32, q) {
                return results_length(n, p, q);
            }
            return 0;
        }
        return 0;
    }
    0
}
