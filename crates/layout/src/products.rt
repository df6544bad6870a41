// Products of sizes with their bounds, so that every place is a sum of small numbers.
ghost use Rattle.std.specs.Prelude.{◌*◌, ◌≤◌};
ghost use Rattle.layout.specs.Products.{Small};

// k², of p or q.
pub fn square(k: usize) -> usize
    requires { k ≤ 32 }
    ensures { Small (k * k) 1024 result }
{
    k * k
}

// q·p, in this order.
pub fn product(q: usize, p: usize) -> usize
    requires { (q ≤ 32) × (p ≤ 16) }
    ensures { Small (q * p) 512 result }
{
    q * p
}
