// After an accepted call the named lengths of the work slices are +0.0.
#![tactic(auto)]

ghost use Rattle.std.specs.Prelude.{◌≤◌, length};
ghost use Rattle.layout.specs.WorkRows.{rows_length};
ghost use Rattle.layout.specs.WorkMatrices.{matrices_length};
ghost use Rattle.layout.specs.WorkTerms.{terms_length};
ghost use Rattle.wipe.specs.Wiped.{Wiped};

// +0.0 into the named length of each work slice; what lies past it stays.
pub fn wipe_work(
    n: usize,
    p: usize,
    q: usize,
    rows: &mut [f64],
    matrices: &mut [f64],
    terms: &mut [f64],
)
    requires n_bound { (n ≤ 512) × (p ≤ 16) × (q ≤ 32) }
    requires n_in_bounds { (rows_length n ≤ length rows.old) × (matrices_length p q ≤ length matrices.old) × (terms_length ≤ length terms.old) }
    ensures { Wiped n p q rows.old rows.new matrices.old matrices.new terms.old terms.new }
{
    base::wipe(rows, layout::rows_length(n));
    base::wipe(matrices, layout::matrices_length(p, q));
    base::wipe(terms, layout::terms_length());
}
