// Several effects: the Cholesky factor of the inverse of their block of A.
ghost use Rattle.scale.specs.Tells.{ScaleRoom, ScaleLeaves};

use crate::sections::section_into;
use layout::inverse_at;
use quadrature::Decline;

// The block of k effects from s on: copied to the place of the inverse in m, its LDL' at the front of t, the inverse over the block, Cholesky of it in place.
pub fn block_scale(
    q: usize,
    s: usize,
    k: usize,
    m: &mut [f64],
    t: &mut [f64],
) -> Result<(), Decline>
    requires { ScaleRoom q s k m.old t.old }
    ensures { ScaleLeaves q s k m.old m.new t.old t.new result }
{
    let place = inverse_at(q);
    let square = k * k;
    let end = place + square;
    section_into(q, s, k, m);
    factor::ldl(&m[place..end], k, &mut t[0..square]).map_err(|_| Decline::Inverse)?;
    factor::ldl_inverse(&t[0..square], k, &mut m[place..end]);
    factor::cholesky(&mut m[place..end], k).map_err(|_| Decline::Factor)
}
