// Substitution with a factor l of size s, in place on the right side in the first s places of x.
ghost use Rattle.std.specs.Prelude.{◌≡◌, ◌+◌, ◌*◌, ◌≤◌, ◌<◌, length};
ghost use Rattle.base.specs.Sum.{◌!◌, sum_to, sum_from, product_from};
ghost use Rattle.factor.specs.Substitution.{down_term, unit_forward, over_d, unit_backward, forward, backward, ldl_solve, cholesky_solve};
ghost use Rattle.factor.specs.Heads.{FirstOther, Zeros};

// The first k below n where l[o + k] * x[k] is not a zero, or n.
fn zeros_before(l: &[f64], o: usize, x: &[f64], n: usize) -> usize
    requires { (o + n ≤ length l.now) × (n ≤ length x.now) }
    ensures { FirstOther 0 n (product_from l.now o x.now) result }
{
    for k in 0..n {
        if l[o + k] * x[k] != 0.0 {
            return k;
        }
    }
    n
}

// The sum of l[o + k] * x[k] over k below n, begun at head: zeros before it leave the sum at +0.0.
pub fn sum_behind(l: &[f64], o: usize, x: &[f64], head: usize, n: usize) -> f64
    requires { (o + n ≤ length l.now) × (n ≤ length x.now) × (head ≤ n) × Zeros 0 head (product_from l.now o x.now) }
    ensures { result ≡ sum_to n (product_from l.now o x.now) }
{
    let mut sum = 0.0;
    for k in head..n {
        sum = sum + l[o + k] * x[k];
    }
    sum
}

// The sum of l[o + k] * x[k] over k below n. The zeros at its head are only tested, which waits for no addition.
fn sum_before(l: &[f64], o: usize, x: &[f64], n: usize) -> f64
    requires { (o + n ≤ length l.now) × (n ≤ length x.now) }
    ensures { result ≡ sum_to n (product_from l.now o x.now) }
{
    let head = zeros_before(l, o, x, n);
    sum_behind(l, o, x, head, n)
}

// The first row k after i where l_ki * x_k is not a zero, or s.
fn zeros_below(l: &[f64], s: usize, i: usize, x: &[f64]) -> usize
    requires { (i < s) × (s * s ≤ length l.now) × (s ≤ length x.now) }
    ensures { FirstOther (i + 1) s (down_term s l.now i (λ k. x.now ! k)) result }
{
    for k in i + 1..s {
        let o = base::offset(k, s, s);
        if l[o + i] * x[k] != 0.0 {
            return k;
        }
    }
    s
}

// The sum over the rows k after i of l_ki * x_k, begun at head: zeros before it leave the sum at +0.0.
pub fn sum_further(l: &[f64], s: usize, i: usize, x: &[f64], head: usize) -> f64
    requires { (i < s) × (s * s ≤ length l.now) × (s ≤ length x.now) × (i < head) × (head ≤ s) × Zeros (i + 1) head (down_term s l.now i (λ k. x.now ! k)) }
    ensures { result ≡ sum_from (i + 1) s (down_term s l.now i (λ k. x.now ! k)) }
{
    let mut sum = 0.0;
    for k in head..s {
        let o = base::offset(k, s, s);
        sum = sum + l[o + i] * x[k];
    }
    sum
}

// The sum over the rows k after i of l_ki * x_k. The zeros at its head are only tested.
fn sum_below(l: &[f64], s: usize, i: usize, x: &[f64]) -> f64
    requires { (i < s) × (s * s ≤ length l.now) × (s ≤ length x.now) }
    ensures { result ≡ sum_from (i + 1) s (down_term s l.now i (λ k. x.now ! k)) }
{
    let head = zeros_below(l, s, i, x);
    sum_further(l, s, i, x, head)
}

// L x = b, where L has 1 on its diagonal.
pub fn unit_forward(l: &[f64], s: usize, x: &mut [f64])
    requires { (s * s ≤ length l.now) × (s ≤ length x.old) }
    ensures { x.new ≡ unit_forward s l.now x.old }
{
    for i in 0..s {
        let o = base::offset(i, s, s);
        let sum = sum_before(l, o, x, i);
        x[i] = x[i] - sum;
    }
}

// Each entry divided by its d.
pub fn over_d(l: &[f64], s: usize, x: &mut [f64])
    requires { (s * s ≤ length l.now) × (s ≤ length x.old) }
    ensures { x.new ≡ over_d s l.now x.old }
{
    for i in 0..s {
        let o = base::offset(i, s, s);
        x[i] = x[i] / l[o + i];
    }
}

// L' x = b, where L has 1 on its diagonal.
pub fn unit_backward(l: &[f64], s: usize, x: &mut [f64])
    requires { (s * s ≤ length l.now) × (s ≤ length x.old) }
    ensures { x.new ≡ unit_backward s l.now x.old }
{
    for i in (0..s).rev() {
        let below = sum_below(l, s, i, x);
        x[i] = x[i] - below;
    }
}

// L x = b, where L has its own diagonal.
pub fn forward(l: &[f64], s: usize, x: &mut [f64])
    requires { (s * s ≤ length l.now) × (s ≤ length x.old) }
    ensures { x.new ≡ forward s l.now x.old }
{
    for i in 0..s {
        let o = base::offset(i, s, s);
        let sum = base::dot_from(l, o, x, i);
        x[i] = (x[i] - sum) / l[o + i];
    }
}

// L' x = b, where L has its own diagonal.
pub fn backward(l: &[f64], s: usize, x: &mut [f64])
    requires { (s * s ≤ length l.now) × (s ≤ length x.old) }
    ensures { x.new ≡ backward s l.now x.old }
{
    for i in (0..s).rev() {
        let o = base::offset(i, s, s);
        let below = sum_below(l, s, i, x);
        x[i] = (x[i] - below) / l[o + i];
    }
}

// The solution with LDL'.
pub fn ldl_solve(l: &[f64], s: usize, x: &mut [f64])
    requires { (s * s ≤ length l.now) × (s ≤ length x.old) }
    ensures { x.new ≡ ldl_solve s l.now x.old }
{
    unit_forward(l, s, x);
    over_d(l, s, x);
    unit_backward(l, s, x);
}

// The solution with the Cholesky factor.
pub fn cholesky_solve(l: &[f64], s: usize, x: &mut [f64])
    requires { (s * s ≤ length l.now) × (s ≤ length x.old) }
    ensures { x.new ≡ cholesky_solve s l.now x.old }
{
    forward(l, s, x);
    backward(l, s, x);
}
