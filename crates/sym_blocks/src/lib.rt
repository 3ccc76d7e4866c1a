//! Symmetric matrices of whole numbers by 6 by 6 blocks, one block for two nodes that are joined.
#![tactic(auto)]

mod blocks;

pub use blocks::{NoMemory, SymBlocks};
