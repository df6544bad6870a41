// Which of two rows holds the predictor.
ghost use Rattle.std.specs.Prelude.{◌≤◌, length};
ghost use Rattle.stages.specs.Held.{Held};

// The first n numbers of whichever row holds the predictor.
pub fn holder<'a>(first: &'a [f64], second: &'a [f64], n: usize, in_second: bool) -> &'a [f64]
    requires { (n ≤ length first.now) × (n ≤ length second.now) }
    ensures { Held n in_second first.now second.now result.now }
{
    if in_second {
        return &second[0..n];
    }
    &first[0..n]
}
