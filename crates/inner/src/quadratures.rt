// The quadrature at the mode that the work slices hold, by the order that the wish and the effects leave.
ghost use Rattle.std.specs.Prelude.{◌≡◌, ◌*◌, ◌≤◌, length};
ghost use Rattle.base.specs.List.{build};
ghost use Rattle.base.specs.Rows.{row, Wrote};
ghost use Rattle.linear.specs.Product.{x_beta_at};
ghost use Rattle.layout.specs.WorkMatrices.{beta_place, matrices_length};
ghost use Rattle.layout.specs.WorkRows.{xbeta_row, rows_length};
ghost use Rattle.model.specs.Settings.{Sizes};
ghost use Rattle.iteration.specs.Iterated.{AskedFor};
ghost use Rattle.inner.specs.Read.{declined_for, ProductAt, JointAt, QuadratureAt};
ghost use Rattle.rule.specs.Lent.{given_in};

use groups::product_step;
use joint::joint_step;
use linear::x_beta;
use quadrature::{Decline, resolve_gh_order_joint, resolve_gh_order_product};
use rule::Given;
use sums::Quadrature;

// No step is made.
fn declined(why: Decline) -> Quadrature
    ensures { result ≡ declined_for why }
{
    Quadrature {
        answer: Err(why),
        points: 0,
    }
}

// Xβ into its row, from the β in m.
fn fixed_row(x: &[f64], n: usize, p: usize, q: usize, r: &mut [f64], m: &[f64])
    requires { (Sizes n p q) × (n * p ≤ length x.now) × (rows_length n ≤ length r.old) × (matrices_length p q ≤ length m.now) }
    ensures { Wrote (xbeta_row n) n (build (x_beta_at x.now p (row (beta_place p q) p m.now)) n) r.old r.new }
{
    let beta = layout::beta_at(p, q);
    let end = layout::beta_end(p, q);
    let xbeta = layout::xbeta_row(n);
    let deviance = layout::deviance_row(n);
    x_beta(x, &m[beta..end], n, p, &mut r[xbeta..deviance]);
}

// One block of groups of k effects.
fn product_at(
    given: &Given<'_>,
    wish: usize,
    groups: usize,
    k: usize,
    phi: f64,
    fit: f64,
    r: &mut [f64],
    m: &mut [f64],
    t: &mut [f64],
) -> Quadrature
    requires asked { AskedFor given.now r.old m.old t.old }
    requires k_value { groups * k ≡ given.now.design.q }
    ensures { ProductAt
        (given_in given.now) wish groups k phi fit r.old r.new m.old
        m.new t.old t.new result }
{
    let design = &given.design;
    let choice = resolve_gh_order_product(wish, k);
    match choice {
        Err(why) => declined(why),
        Ok(order) => {
            fixed_row(design.x, design.n, design.p, design.q, r, m);
            product_step(given, order, groups, k, phi, fit, r, m, t)
        }
    }
}

// Several blocks: all effects at once.
fn joint_at(
    given: &Given<'_>,
    wish: usize,
    phi: f64,
    fit: f64,
    r: &mut [f64],
    m: &mut [f64],
    t: &mut [f64],
) -> Quadrature
    requires { AskedFor given.now r.old m.old t.old }
    ensures { JointAt
        (given_in given.now) wish phi fit r.old r.new m.old m.new
        t.old t.new result }
{
    let design = &given.design;
    let choice = resolve_gh_order_joint(wish, design.q);
    match choice {
        Err(why) => declined(why),
        Ok(order) => {
            fixed_row(design.x, design.n, design.p, design.q, r, m);
            joint_step(given, order, phi, fit, r, m, t)
        }
    }
}

// The quadrature at the mode that the work slices hold, whose fit term is `fit`: the product rule for one block, the joint rule for several.
pub fn quadrature_at(
    given: &Given<'_>,
    wish: usize,
    phi: f64,
    fit: f64,
    r: &mut [f64],
    m: &mut [f64],
    t: &mut [f64],
) -> Quadrature
    requires { AskedFor given.now r.old m.old t.old }
    ensures { QuadratureAt
        (given_in given.now) wish phi fit r.old r.new m.old m.new
        t.old t.new result }
{
    let design = &given.design;
    if design.shape.count == 1 {
        let groups = design.shape.m[0];
        let k = design.shape.k[0];
        return product_at(given, wish, groups, k, phi, fit, r, m, t);
    }
    joint_at(given, wish, phi, fit, r, m, t)
}
