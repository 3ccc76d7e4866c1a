//! Factorisations of a stiffness matrix by the integer Cholesky recurrence.
#![tactic(auto)]

mod by_fronts;
mod dot;
mod eliminate;
mod fault;
mod front;
mod gather;
mod panel;
mod recurrence;
mod scatter;
mod squares;

pub use by_fronts::fronts;
pub use fault::ScalarFault;
pub use recurrence::scalar;
