// What the products with V leave of the sums: the normal matrix and its right side.
ghost use Rattle.std.specs.Prelude.{◌+◌, ◌*◌, ◌≤◌, ◌<◌, length};
ghost use Rattle.base.specs.List.{build};
ghost use Rattle.base.specs.Rows.{row, Wrote};
ghost use Rattle.columns.specs.Pieces.{less_mixed, less_solved, LowerWrote};

// Row a of the normal matrix up to its diagonal, X'WX being c and the columns W solved; V is at unsolved of t, the normal matrix behind it at normal.
fn normal_row(
    c: &[f64],
    solved: &[f64],
    p: usize,
    q: usize,
    a: usize,
    unsolved: usize,
    normal: usize,
    t: &mut [f64],
)
    requires { (p * p ≤ length c.now) × (p * q ≤ length solved.now) × (a < p) × (unsolved + p * q ≤ normal) × (normal + p * p ≤ length t.old) }
    ensures { Wrote (normal + a * p) (a + 1) (build (less_mixed c.now (row unsolved (p * q) t.old) solved.now p q a) (a + 1))
        t.old t.new }
{
    let d = base::offset(a, p, p);
    let v = base::offset(a, p, q);
    let na = normal + d;
    let va = unsolved + v;
    let ve = va + q;
    for b in 0..=a {
        let o = base::offset(b, p, q);
        let mixed = base::dot_from(solved, o, &t[va..ve], q);
        t[na + b] = c[d + b] - mixed;
    }
}

// The normal matrix up to its diagonal, into the p² places of t from normal on, X'WX being at crossed of m and the columns W at solved.
pub fn normal_into(
    p: usize,
    q: usize,
    crossed: usize,
    solved: usize,
    m: &[f64],
    unsolved: usize,
    normal: usize,
    t: &mut [f64],
)
    requires { (crossed + p * p ≤ length m.now) × (solved + p * q ≤ length m.now) × (unsolved + p * q ≤ normal) × (normal + p * p ≤ length t.old) }
    ensures { LowerWrote normal p (less_mixed (row crossed (p * p) m.now) (row unsolved (p * q) t.old) (row solved (p * q) m.now) p q)
        t.old t.new }
{
    let ce = crossed + p * p;
    let se = solved + p * q;
    for a in 0..p {
        normal_row(
            &m[crossed..ce],
            &m[solved..se],
            p,
            q,
            a,
            unsolved,
            normal,
            t,
        );
    }
}

// The normal matrix's right side over the p places of m from beta on: what stands there less V_a·wy, V being at unsolved of t.
pub fn sides_into(
    p: usize,
    q: usize,
    unsolved: usize,
    t: &[f64],
    wy: usize,
    beta: usize,
    m: &mut [f64],
)
    requires { (unsolved + p * q ≤ length t.now) × (wy + q ≤ beta) × (beta + p ≤ length m.old) }
    ensures { Wrote beta p (build (less_solved (row beta p m.old) (row unsolved (p * q) t.now) (row wy q m.old) q) p) m.old
        m.new }
{
    let ye = wy + q;
    for a in 0..p {
        let o = base::offset(a, p, q);
        let va = unsolved + o;
        let ve = va + q;
        let mixed = base::dot(&t[va..ve], &m[wy..ye], q);
        m[beta + a] = m[beta + a] - mixed;
    }
}
