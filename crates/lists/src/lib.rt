//! Lists: a `Vec` that is seen as its list, rising lists, lists of lists, orders with their inverse, and the
//! rows of a matrix with six for each node.
#![tactic(auto)]

mod links;
mod ordered;
mod rising;
mod rows;
mod views;

pub use links::{empty_lists, link_pairs, list_in_all, list_number};
pub use ordered::Permutation;
pub use rising::{find_rising, insert_later, insert_rising};
pub use rows::{freedom_of, node_of, row_of};
pub use views::Sequence;
