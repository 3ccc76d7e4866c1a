// Laws of whole numbers: products against sums and order, and sums alone.
#![tactic(auto)]
