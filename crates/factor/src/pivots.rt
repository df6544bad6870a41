// What a pivot must be.
ghost use Rattle.std.specs.Prelude.{◌≡◌};
ghost use Rattle.factor.specs.Triangle.{usable, positive};

// Whether LDL' can divide by d: finite and not zero.
pub fn usable_pivot(d: f64) -> bool
    ensures { result ≡ usable d }
{
    base::is_finite(d) && d != 0.0
}

// Whether Cholesky can take the root of d: above zero and finite.
pub fn positive_pivot(d: f64) -> bool
    ensures { result ≡ positive d }
{
    0.0 < d && base::is_finite(d)
}
