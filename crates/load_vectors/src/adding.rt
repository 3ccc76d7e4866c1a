//! Loads on the nodes, added to the rows.
ghost use Rattle.std.specs.Prelude.{◌≡◌, ◌<◌, ◌≤◌, ◌+◌, ◌*◌, ℕ, Ok, length};
ghost use Rattle.std.specs.List.{slice_index_or};
ghost use Rattle.flex_interval.specs.Operations.{add_of};
ghost use Rattle.member_set.specs.Members.{nothing, load_of};
ghost use Rattle.load_vectors.specs.Totals.{AddsParts, AreOfLoads, IsOfLoads};

use flex_interval::{Iv, add};

/// Adds six intervals to the rows of a node.
pub(crate) fn add_parts(loads: &mut [Iv], node: u32, parts: &[Iv; 6])
    requires node { 6 * node + 6 ≤ length loads.old }
    requires room { AreOfLoads 20000 loads.old }
    requires parts { (freedom : ℕ) → freedom < 6 → IsOfLoads 1 (slice_index_or parts.now freedom nothing) }
    ensures adds { AddsParts loads.old loads.new node parts.now }
    ensures size { (n : ℕ) → AreOfLoads n loads.old → AreOfLoads (n + 1) loads.new }
{
    for freedom in 0..6 {
        let row = 6 * node as usize + freedom;
        loads[row] = sum(loads[row], parts[freedom]);
    }
}

/// The sum of loads and of one more.
fn sum(total: Iv, part: Iv) -> Iv
    requires room { IsOfLoads 20000 total }
    requires part { IsOfLoads 1 part }
    ensures value { add_of total part ≡ Ok result }
    ensures size { (n : ℕ) → IsOfLoads n total → IsOfLoads (n + 1) result }
{
    add(total, part).unwrap()
}
