//! The order in which the nodes of a graph are eliminated: rounds of nodes of least degree.
#![tactic(auto)]

mod fault;
mod graph;
mod laws;
mod queue;
mod rounds;

pub use fault::OrderFault;
pub use laws::{orders_are_determined, orders_exist};
pub use rounds::order;
