// A block of A, copied to where it is factored from.
ghost use Rattle.std.specs.Prelude.{◌≡◌, ◌+◌, ◌*◌, ◌≤◌, length};
ghost use Rattle.base.specs.List.{fill_at};
ghost use Rattle.base.specs.Rows.{row, Wrote};
ghost use Rattle.layout.specs.WorkMatrices.{system_place, inverse_place};
ghost use Rattle.agq_rule.specs.Scale.{section_of};
ghost use Rattle.scale.specs.Tells.{entry_from};

use layout::inverse_at;

// The n numbers from `from` on to the n places from `to` on, which lie behind them.
pub fn copy_row(from: usize, to: usize, n: usize, m: &mut [f64])
    requires { (from + n ≤ to) × (to + n ≤ length m.old) }
    ensures { m.new ≡ fill_at to n (entry_from m.old from) m.old }
{
    for j in 0..n {
        m[to + j] = m[from + j];
    }
}

// The k by k block of A that begins at effect s, to the place of the inverse.
pub fn section_into(q: usize, s: usize, k: usize, m: &mut [f64])
    requires { (q ≤ 32) × (s + k ≤ q) × (inverse_place q + q * q ≤ length m.old) }
    ensures { Wrote (inverse_place q) (k * k) (section_of q (row system_place (q * q) m.old) s k) m.old m.new }
{
    let place = inverse_at(q);
    for i in 0..k {
        let effect = s + i;
        let source = base::offset(effect, q, q);
        let target = base::offset(i, k, k);
        let from = source + s;
        let to = place + target;
        copy_row(from, to, k, m);
    }
}
