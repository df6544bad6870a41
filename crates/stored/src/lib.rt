// Products with Z', which is stored by its rows: row starts, columns, values.
#![tactic(auto)]

mod effects;
mod lent;
mod marks;
mod side;
mod weighted;

pub use effects::z_times;
pub use lent::Sparse;
pub use side::zt_times;
pub use weighted::ztwz;
