// The normal matrix's Cholesky factor, and β.
ghost use Rattle.std.specs.Prelude.{◌+◌, ◌*◌, ◌≤◌, length};
ghost use Rattle.solve.specs.Root.{RootOf, SolvedBeta};

// Cholesky of the normal matrix at `normal` of t, over it.
pub fn factor_normal(p: usize, normal: usize, t: &mut [f64]) -> Result<(), usize>
    requires { normal + p * p ≤ length t.old }
    ensures { RootOf normal p t.old t.new result }
{
    let e = normal + p * p;
    factor::cholesky(&mut t[normal..e], p)
}

// β over its right side at `beta` of m, with the factor l.
pub fn solve_beta(p: usize, l: &[f64], beta: usize, m: &mut [f64])
    requires { (p * p ≤ length l.now) × (beta + p ≤ length m.old) }
    ensures { SolvedBeta beta p l.now m.old m.new }
{
    let e = beta + p;
    factor::cholesky_solve(l, p, &mut m[beta..e]);
}
