ghost use Rattle.std.specs.Prelude.{◌≡◌, IfOk, Err, ℕ, All};
ghost use Rattle.structure.specs.Enclosure.{EachEncloses, EnclosesElements, EnclosesRestraints, HoldsRestraint};
ghost use Rattle.structure.specs.Stations.{HoldTangents};
ghost use Rattle.structure.specs.Sound.{AreMembers};
ghost use Rattle.structure.specs.Structure.{IsStructureOf, model_members};
ghost use Rattle.member_set.specs.Members.{AreStiff};

use crate::elements::all_element_members;
use crate::fault::BuildFault;
use crate::restraints::{push_restraints, unilateral};
use crate::stations::stations;
use crate::touching::touching;
use member_set::{Built, Member, Sequence};
use model_types::{ElementId, Model};
use std::alloc::Global;

/// The structure of a model: the members of its elements in order, then of its restraints in order, the numbers of the members
/// with states, the stations, and for each node the numbers of the members that touch it.
pub fn build(alloc: Global, m: &Model) -> Result<Built, BuildFault>
    ensures structure { IfOk result (IsStructureOf m.now) }
    ensures stiff { IfOk result AreStiff }
    ensures encloses { IfOk result (EnclosesElements m.now) }
    ensures holds { IfOk result (EnclosesRestraints m.now) }
    ensures tangents { IfOk result (HoldTangents m.now) }
    ensures wide { (id : ElementId) → result ≡ Err (BuildFault.Wide id) → model_members m.now ≡ Err id.0 }
{
    let members = model_members(alloc, m)?;
    let unilateral = unilateral(alloc, m)?;
    let stations = stations(alloc, m)?;
    let at = touching(alloc, &members, m.nodes().len())?;
    Ok(Built {
        members: Sequence::new(members),
        unilateral: Sequence::new(unilateral),
        stations: Sequence::new(stations),
        at: Sequence::new(at),
    })
}

/// The members of a model: of its elements in order, then of its restraints in order.
fn model_members(alloc: Global, m: &Model) -> Result<Vec<Member>, BuildFault>
    ensures members { IfOk result (λ members. AreMembers m.now members.items) }
    ensures encloses { IfOk result (λ _. EachEncloses m.now) }
    ensures holds { IfOk result (λ _. All HoldsRestraint m.now.restraints) }
    ensures wide { (id : ElementId) → result ≡ Err (BuildFault.Wide id) → model_members m.now ≡ Err id.0 }
{
    let mut members = all_element_members(alloc, m)?;
    push_restraints(alloc, &mut members, m.restraints())?;
    Ok(members)
}
