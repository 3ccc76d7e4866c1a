ghost use Rattle.std.specs.Prelude.{◌≡◌, ◌/◌, ◌<◌, length, OnOk, OnErr, IsErr};
ghost use Rattle.member_set.specs.Members.{IsBuilt, member_of, row_count};
ghost use Rattle.member_set.specs.States.{under};
ghost use Rattle.assembly.specs.Stiffness.{upper_entry};
ghost use Rattle.assembly.specs.Filling.{scaled_of, IsScaled};

use flex_interval::{Iv, IvFault, point};
use member_set::{Built, faults_stay, included, members_at, shape, states_select_members};

/// The stiffness times the shape number on a row, for each member at the row's node. Where one has no enclosure, the row's
/// entry on the diagonal has none.
pub(crate) fn scale(b: &Built, closed: &[bool], row: u32, scaled: &mut [Iv]) -> Result<(), IvFault>
    requires built { IsBuilt b.now }
    requires row_in_range { row < row_count b.now }
    requires one_each { length scaled.old ≡ length b.now.members }
    ensures scaled { OnOk result (IsScaled (under b.now closed.now) row scaled.new) }
    ensures one_each { length scaled.new ≡ length b.now.members }
    ensures fault { OnErr result (IsErr (upper_entry (under b.now closed.now) row row)) }
{
    faults_stay();
    states_select_members();
    for &k in members_at(b, row) {
        scaled[k as usize] = scaled_shape(b, closed, k, row)?;
    }
    Ok(())
}

/// The stiffness of a member times its shape number on a row.
fn scaled_shape(b: &Built, closed: &[bool], k: u32, row: u32) -> Result<Iv, IvFault>
    requires built { IsBuilt b.now }
    requires member_in_range { k < length b.now.members }
    ensures { result ≡ scaled_of (under b.now closed.now) row k }
{
    let stiffness = stiffness_under(b, closed, k);
    flex_interval::mul(stiffness, shape(&b.members.as_slice()[k as usize], row), 56)
}

/// The stiffness of a member that takes part, and 0 of another.
fn stiffness_under(b: &Built, closed: &[bool], k: u32) -> Iv
    requires built { IsBuilt b.now }
    requires member_in_range { k < length b.now.members }
    ensures { result ≡ (member_of (under b.now closed.now) k).kappa }
{
    if included(b, closed, k) {
        b.members.as_slice()[k as usize].kappa
    } else {
        point(0)
    }
}
