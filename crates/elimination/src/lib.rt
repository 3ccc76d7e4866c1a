// The elimination of a graph's nodes in their order, its tree, and its laws.
#![tactic(auto)]
