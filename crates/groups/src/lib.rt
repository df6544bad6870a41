// The product rule over the work slices: group by group, each with one effect or with several.
#![tactic(auto)]

mod group;
mod product;

pub use product::product_step;
