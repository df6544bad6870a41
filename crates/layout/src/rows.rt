// Where the rows of the work slice `rows` begin. Each is n numbers long.
ghost use Rattle.std.specs.Prelude.{◌≡◌, ◌≤◌};
ghost use Rattle.layout.specs.WorkRows.{second_eta_row, mu_row, raw_row, xbeta_row, deviance_row, point_row, mark_row, weighted_row, working_row, rows_length};

// The predictor stands in one of two rows, the candidate in the other: the first begins the slice, this is the second.
pub fn second_eta_row(n: usize) -> usize
    ensures { result ≡ second_eta_row n }
{
    n
}

// The means: the start's, then the candidate's.
pub fn mu_row(n: usize) -> usize
    requires { n ≤ 512 }
    ensures { result ≡ mu_row n }
{
    2 * n
}

// Zb, then the raw predictor.
pub fn raw_row(n: usize) -> usize
    requires { n ≤ 512 }
    ensures { result ≡ raw_row n }
{
    3 * n
}

// Xβ.
pub fn xbeta_row(n: usize) -> usize
    requires { n ≤ 512 }
    ensures { result ≡ xbeta_row n }
{
    4 * n
}

// The deviances at the mode.
pub fn deviance_row(n: usize) -> usize
    requires { n ≤ 512 }
    ensures { result ≡ deviance_row n }
{
    5 * n
}

// Zb of a quadrature point.
pub fn point_row(n: usize) -> usize
    requires { n ≤ 512 }
    ensures { result ≡ point_row n }
{
    6 * n
}

// The mark of a group's observations.
pub fn mark_row(n: usize) -> usize
    requires { n ≤ 512 }
    ensures { result ≡ mark_row n }
{
    7 * n
}

// w·(z - offset).
pub fn weighted_row(n: usize) -> usize
    requires { n ≤ 512 }
    ensures { result ≡ weighted_row n }
{
    8 * n
}

// z - offset.
pub fn working_row(n: usize) -> usize
    requires { n ≤ 512 }
    ensures { result ≡ working_row n }
{
    10 * n
}

// The named length of the slice.
pub fn rows_length(n: usize) -> usize
    requires { n ≤ 512 }
    ensures { result ≡ rows_length n }
{
    16 * n
}
