// L z: how far a quadrature point lies from the mode.
#![tactic(auto)]

mod product;

pub use product::spread_at;
