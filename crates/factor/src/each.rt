// Columns of s numbers each, which stand one behind the other, changed one by one.
ghost use Rattle.std.specs.Prelude.{◌≡◌, ℕ, ◌+◌, ◌*◌, ◌≤◌, ◌<◌, length, List, Float};
ghost use Rattle.base.specs.List.{grid_to};
ghost use Rattle.base.specs.Rows.{row};
ghost use Rattle.base.specs.InPlace.{Rule};
ghost use Rattle.factor.specs.Sides.{changed_at, Entered, RowEntered};

// `change` changes each of the first n columns.
pub fn change_columns<F: Fn(usize, &mut [f64])>(s: usize, n: usize, x: &mut [f64], change: F)
    requires room { n * s ≤ length x.old }
    requires may { (a : ℕ) (b : _) → a < n → length b.now ≡ s → F.pre change a b }
    ensures { (h : ℕ → List Float → List Float) → ((a : ℕ) (b c : _) → a < n → length b.now ≡ s → F.post change a b tt c → c.now ≡ h a b.now) → x.new ≡ grid_to n s (changed_at h s x.old) x.old }
{
    for a in 0..n {
        let o = base::offset(a, n, s);
        let e = o + s;
        change(a, &mut x[o..e]);
    }
}

// `enter` changes an entry of each of the first n columns, and says whether it is finite: whether all these entries are.
pub fn enter_columns<F: Fn(&mut [f64]) -> bool>(s: usize, n: usize, x: &mut [f64], enter: F) -> bool
    requires room { n * s ≤ length x.old }
    requires may { (a : ℕ) (b : _) → a < n → length b.now ≡ s → b.now ≡ row (a * s) s x.old → F.pre enter b }
    ensures { (g : Rule) (i : ℕ) → ((b c : _) (r : _) → length b.now ≡ s → F.post enter b r c → Entered g i b.now r c.now) → RowEntered g i s n x.old result x.new }
{
    let mut fine = true;
    for a in 0..n {
        let o = base::offset(a, n, s);
        let e = o + s;
        fine &= enter(&mut x[o..e]);
    }
    fine
}
