ghost use Rattle.std.specs.Prelude.{◌≡◌, ◌+◌, ◌/◌, ◌^◌, ◌<◌, ◌⊎◌, length, unsigned_abs, IfOk};
ghost use Rattle.flex_interval.specs.Operations.{add_of};
ghost use Rattle.lists.specs.Results.{and_then};
ghost use Rattle.member_set.specs.Members.{IsBuilt, touches, row_count};
ghost use Rattle.member_set.specs.States.{under};
ghost use Rattle.assembly.specs.Stiffness.{entry_sum, limited_entry, upper_entry};
ghost use Rattle.assembly.specs.Filling.{pair_entry, IsScaled};

use flex_interval::{Iv, IvFault, middle, radius};
use member_set::{Built, Member, faults_stay, members_at, shape, states_select_members};

/// The middle and the radius of an entry together are below this, in units of 2^-20 N/m.
const ENTRY_LIMIT: u128 = 1 << 60;

/// A row of the matrix of the members that take part under given states.
#[derive(Clone, Copy)]
pub(crate) struct ScaledRow<'a> {
    pub b: &'a Built,
    pub closed: &'a [bool],
    pub number: u32,
    /// The stiffness times the shape number on the row, for each member at the row's node.
    pub scaled: &'a [Iv],
}

/// The enclosure of an entry, the lesser row first, in units of 2^-20 N/m. `Wide` too where its middle and radius together
/// reach 2^60.
pub(crate) fn upper_entry(row: &ScaledRow, col: u32) -> Result<Iv, IvFault>
    requires built { IsBuilt row.now.b.now }
    requires row_in_range { row.now.number < row_count row.now.b.now }
    requires col_in_range { col < row_count row.now.b.now }
    requires scaled { IsScaled (under row.now.b.now row.now.closed.now) row.now.number row.now.scaled.now }
    ensures { result ≡ upper_entry (under row.now.b.now row.now.closed.now) row.now.number col }
{
    limited(entry_sum(row, col)?)
}

/// An enclosure below the limit.
fn limited(e: Iv) -> Result<Iv, IvFault>
    ensures { result ≡ limited_entry e }
{
    if middle(e).unsigned_abs() + radius(e).unsigned_abs() < ENTRY_LIMIT {
        Ok(e)
    } else {
        Err(IvFault::Wide)
    }
}

/// The sum over the members at the row's node, by way of the fewer that are at the column's where it has fewer.
fn entry_sum(row: &ScaledRow, col: u32) -> Result<Iv, IvFault>
    requires built { IsBuilt row.now.b.now }
    requires row_in_range { row.now.number < row_count row.now.b.now }
    requires col_in_range { col < row_count row.now.b.now }
    requires scaled { IsScaled (under row.now.b.now row.now.closed.now) row.now.number row.now.scaled.now }
    ensures { result ≡ entry_sum (under row.now.b.now row.now.closed.now) row.now.number col }
{
    faults_stay();
    states_select_members();
    let mut total = flex_interval::point(0);
    for &k in members_at(row.b, with_fewer(row, col)) {
        total = plus_member(row, k, col, total)?;
    }
    Ok(total)
}

/// The row, or the column where fewer members are at its node.
fn with_fewer(row: &ScaledRow, col: u32) -> u32
    requires built { IsBuilt row.now.b.now }
    requires row_in_range { row.now.number < row_count row.now.b.now }
    requires col_in_range { col < row_count row.now.b.now }
    ensures { (result ≡ row.now.number) ⊎ (result ≡ col) }
{
    if members_at(row.b, col).len() < members_at(row.b, row.number).len() {
        col
    } else {
        row.number
    }
}

/// A sum and what a member gives to the entry.
fn plus_member(row: &ScaledRow, k: u32, col: u32, total: Iv) -> Result<Iv, IvFault>
    requires built { IsBuilt row.now.b.now }
    requires row_in_range { row.now.number < row_count row.now.b.now }
    requires member_in_range { k < length row.now.b.now.members }
    requires scaled { IsScaled (under row.now.b.now row.now.closed.now) row.now.number row.now.scaled.now }
    ensures { result ≡ and_then (pair_entry (under row.now.b.now row.now.closed.now) row.now.number col k) (add_of total) }
{
    flex_interval::add(total, member_entry(row, k, col)?)
}

/// What a member gives to an entry.
fn member_entry(row: &ScaledRow, k: u32, col: u32) -> Result<Iv, IvFault>
    requires built { IsBuilt row.now.b.now }
    requires row_in_range { row.now.number < row_count row.now.b.now }
    requires member_in_range { k < length row.now.b.now.members }
    requires scaled { IsScaled (under row.now.b.now row.now.closed.now) row.now.number row.now.scaled.now }
    ensures { result ≡ pair_entry (under row.now.b.now row.now.closed.now) row.now.number col k }
{
    let m = &row.b.members.as_slice()[k as usize];
    if touches(m, row.number / 6) && touches(m, col / 6) {
        flex_interval::mul(row.scaled[k as usize], shape(m, col), 56)
    } else {
        Ok(flex_interval::point(0))
    }
}

/// Whether a node is one of the member's.
fn touches(m: &Member, node: u32) -> bool
    ensures { result ≡ touches m.now node }
{
    m.n1 == node || m.n2 == node
}
