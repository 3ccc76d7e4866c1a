// Interval arithmetic over whole numbers: each operation rounds its ends outwards, so that it encloses every exact result.
#![tactic(auto)]

mod best;
mod bounded;
mod cube_root;
mod fault;
mod interval;
mod laws;
mod order;
mod parts;
mod product;
mod quotient;
mod scale;
mod square_root;
mod sum;

pub use best::best_root;
pub use bounded::{share, small_cbrt, small_product, small_sum};
pub use cube_root::cbrt;
pub use fault::{IvFault, Wide};
pub use interval::{Iv, point};
pub use laws::operations_hold;
pub use order::{abs, max, min};
pub use parts::{middle, radius};
pub use product::mul;
pub use quotient::div;
pub use scale::ratio;
pub use square_root::root;
pub use sum::{add, neg, sub};
