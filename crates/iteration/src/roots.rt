// The normal matrix's Cholesky factor and β, where the layout has them.
ghost use Rattle.std.specs.Prelude.{◌≤◌, length};
ghost use Rattle.model.specs.Settings.{Sizes};
ghost use Rattle.layout.specs.WorkMatrices.{matrices_length};
ghost use Rattle.layout.specs.WorkTerms.{terms_length};
ghost use Rattle.iteration.specs.Solving.{RootSolved};

use layout::{beta_at, normal_at};
use solve::{factor_normal, solve_beta};

// Cholesky of the normal matrix over it, and β over its right side.
pub fn solve_root(n: usize, p: usize, q: usize, m: &mut [f64], t: &mut [f64]) -> Result<(), usize>
    requires sizes { Sizes n p q }
    requires q_in_bounds { (matrices_length p q ≤ length m.old) × (terms_length ≤ length t.old) }
    ensures { RootSolved n p q m.old m.new t.old t.new result }
{
    let normal = normal_at(n, p, q);
    factor_normal(p, normal, t)?;
    let end = normal + p * p;
    let beta = beta_at(p, q);
    solve_beta(p, &t[normal..end], beta, m);
    Ok(())
}
