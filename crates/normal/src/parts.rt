// y² / 2 and y / sqrt 2 in parts, so that neither is rounded where it would count.
ghost use Rattle.std.specs.Prelude.{◌≡◌};
ghost use Rattle.normal.specs.Tail.{on_grid, half_square, half_rest, root_rest};

// 1.5 * 2^32: a sum with it has no digits below 2^-20.
const GRID: f64 = 6442450944.0;

// (sqrt 2 - 1) / 2, its digits down to 2^-34, and what it lacks.
pub const K1: f64 = 0.207106781133916229009628295898;

const K2: f64 = 5.263129539121607e-11;

// The multiple of 2^-20 nearest to y.
#[tactic(auto, unfolding(crate::specs::Tail::on_grid))]
pub fn on_grid(y: f64) -> f64
    ensures { result ≡ on_grid y }
{
    y + GRID - GRID
}

// z² / 2, exact for a z on the grid.
#[tactic(auto, unfolding(crate::specs::Tail::half_square))]
pub fn half_square(z: f64) -> f64
    ensures { result ≡ half_square z }
{
    0.5 * (z * z)
}

// What z² / 2 lacks of y² / 2.
#[tactic(auto, unfolding(crate::specs::Tail::half_rest))]
pub fn half_rest(y: f64, z: f64) -> f64
    ensures { result ≡ half_rest y z }
{
    0.5 * ((y - z) * (y + z))
}

// What y / 2 + K1 z lacks of y / sqrt 2.
#[tactic(auto, unfolding(crate::specs::Tail::root_rest))]
pub fn root_rest(y: f64, z: f64) -> f64
    ensures { result ≡ root_rest y z }
{
    (y - z) * K1 + y * K2
}
