// Quotients, roots, products and guarded sums of whole numbers, each exact or rounded in the direction that its name says.
#![tactic(auto)]

mod cube_root;
mod division;
mod guarded;
mod product;
mod root;

pub use cube_root::{icbrt, icbrt_up};
pub use division::{ceil_div, floor_div, nearest_div};
pub use guarded::{GUARD, GuardedSum};
pub use product::mul;
pub use root::{isqrt, isqrt_up};
