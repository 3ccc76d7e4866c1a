ghost use Rattle.std.specs.Prelude.{◌≡◌, ◌<◌, ◌≤◌, ◌+◌, ◌*◌, ◌^◌, ℕ, ℤ, [], length, IfOk, OnOk, Ok, Err, if◌then◌else◌};
ghost use Rattle.std.specs.List.{slice_index_or};
ghost use Rattle.flex_interval.specs.Fraction.{Within};
ghost use Rattle.member_set.specs.Interval.{limited_force};
ghost use Rattle.member_set.specs.Members.{load_of};
ghost use Rattle.model_types.specs.Ranges.{IsIn, CaseInForm, ForceInForm, KindInForm};
ghost use Rattle.load_vectors.specs.Cases.{case_at};
ghost use Rattle.load_vectors.specs.Loads.{AreLoads, EncloseLoads, IsFirstWideLoad};
ghost use Rattle.load_vectors.specs.NodeLoads.{force_loads, forces_in, hanger_loads, hangers_in, in_units, loads_in, units_of, weights_in, whole_load, part_of, upward, by_freedom};
ghost use Rattle.load_vectors.specs.Totals.{AddsLoads, AreOfLoads, AreTotals, ArePartsOf, IsFirstOver, IsOfLoads};

use crate::adding::add_parts;
use crate::elements::add_weight;
use crate::fault::LoadFault;
use flex_interval::{Iv, IvFault, point, ratio};
use member_set::FORCE_LIMIT;
use model_types::ranges::LOAD;
use model_types::{Case, CaseId, Force, Model, Restraint, RestraintKind};
use std::alloc::{AllocError, Global};

/// The load of each row in a case, in units of 2^-40 N or N m: for each node `ux uy uz rx ry rz`, the sum of the forces on it, of the
/// hangers where they act, and of the weight of the elements that end there. `Wide` names the first row whose load reaches 2^66 in size.
pub fn loads(alloc: Global, m: &Model, case: CaseId) -> Result<Vec<Iv>, LoadFault>
    requires { case.0 < length m.now.cases }
    ensures loads { IfOk result (λ loads. AreLoads m.now case.0 loads.items) }
    ensures within { IfOk result (λ loads. EncloseLoads m.now case.0 loads.items) }
    ensures wide { (row : ℕ) → result ≡ Err (LoadFault.Wide row) → IsFirstWideLoad m.now case.0 row }
{
    let loads = sums(alloc, m, case)?;
    // What every model keeps: not many nodes.
    let _nodes = m.nodes();
    test_limit(&loads)?;
    Ok(loads)
}

/// The sums of all that acts in a case, row by row.
fn sums(alloc: Global, m: &Model, case: CaseId) -> Result<Vec<Iv>, AllocError>
    requires { case.0 < length m.now.cases }
    ensures { IfOk result (λ sums. AreTotals m.now (loads_in m.now case.0) sums.items) }
{
    let mut loads = vec![in alloc; point(0); 6 * m.nodes().len()]?;
    add_all(m, case, &mut loads);
    Ok(loads)
}

/// Adds all that acts in a case.
fn add_all(m: &Model, case: CaseId, loads: &mut [Iv])
    requires case { case.0 < length m.now.cases }
    requires rows { length loads.old ≡ 6 * length m.now.nodes }
    requires start { AreTotals m.now [] loads.old }
    requires room { AreOfLoads 0 loads.old }
    ensures { AreTotals m.now (loads_in m.now case.0) loads.new }
{
    add_forces(m, case, loads);
    add_hangers(m, case, loads);
    add_weights(m, case, loads);
}

/// Adds the forces of a case.
fn add_forces(m: &Model, case: CaseId, loads: &mut [Iv])
    requires rows { length loads.old ≡ 6 * length m.now.nodes }
    requires room { AreOfLoads 0 loads.old }
    ensures rows { length loads.new ≡ length loads.old }
    ensures adds { AddsLoads m.now (forces_in m.now case.0) loads.old loads.new }
    ensures size { AreOfLoads 4000 loads.new }
{
    let forces = m.forces();
    for number in 0..forces.len() {
        add_force(m, case, &forces[number], loads);
    }
}

/// Adds the loads of the hangers, where they act in a case.
fn add_hangers(m: &Model, case: CaseId, loads: &mut [Iv])
    requires case { case.0 < length m.now.cases }
    requires rows { length loads.old ≡ 6 * length m.now.nodes }
    requires room { AreOfLoads 4000 loads.old }
    ensures rows { length loads.new ≡ length loads.old }
    ensures adds { AddsLoads m.now (hangers_in m.now case.0) loads.old loads.new }
    ensures size { AreOfLoads 6000 loads.new }
{
    let case = m.case(case);
    let restraints = m.restraints();
    for number in 0..restraints.len() {
        add_hanger(m, case, &restraints[number], loads);
    }
}

/// Adds the weight of the elements in a case.
fn add_weights(m: &Model, case: CaseId, loads: &mut [Iv])
    requires case { case.0 < length m.now.cases }
    requires rows { length loads.old ≡ 6 * length m.now.nodes }
    requires room { AreOfLoads 6000 loads.old }
    ensures rows { length loads.new ≡ length loads.old }
    ensures adds { AddsLoads m.now (weights_in m.now case.0) loads.old loads.new }
{
    let elements = m.elements();
    for number in 0..elements.len() {
        add_weight(m, case, &elements[number], loads);
    }
}

/// Adds a force, where it is one of the case, to the rows of its node.
fn add_force(m: &Model, case: CaseId, force: &Force, loads: &mut [Iv])
    requires form { ForceInForm force.now }
    requires node { force.now.node.0 < length m.now.nodes }
    requires rows { length loads.old ≡ 6 * length m.now.nodes }
    requires room { AreOfLoads 20000 loads.old }
    ensures rows { length loads.new ≡ length loads.old }
    ensures adds { AddsLoads m.now (force_loads case.0 force.now) loads.old loads.new }
    ensures size { (n : ℕ) → AreOfLoads n loads.old → AreOfLoads (n + 1) loads.new }
{
    let _nodes = m.nodes();
    if force.case.0 == case.0 {
        add_parts(loads, force.node.0, &force_parts(force));
    }
}

/// Adds the load of a hanger, where hangers act in the case, upwards to its node.
fn add_hanger(m: &Model, case: &Case, r: &Restraint, loads: &mut [Iv])
    requires form { KindInForm r.now.kind }
    requires node { r.now.node.0 < length m.now.nodes }
    requires rows { length loads.old ≡ 6 * length m.now.nodes }
    requires room { AreOfLoads 20000 loads.old }
    ensures rows { length loads.new ≡ length loads.old }
    ensures adds { AddsLoads m.now (hanger_loads case.now r.now) loads.old loads.new }
    ensures size { (n : ℕ) → AreOfLoads n loads.old → AreOfLoads (n + 1) loads.new }
{
    let _nodes = m.nodes();
    if !case.hangers {
        return;
    }
    match r.kind {
        RestraintKind::Hanger { load, .. } => add_parts(loads, r.node.0, &hanger_parts(load)),
        RestraintKind::Anchor { .. } | RestraintKind::Linear { .. } => (),
        RestraintKind::Twist { .. } | RestraintKind::Oneway { .. } | RestraintKind::Gap { .. } =>
            (),
    }
}

/// The parts of a force.
fn force_parts(force: &Force) -> [Iv; 6]
    requires { ForceInForm force.now }
    ensures { ArePartsOf (whole_load force.now.node.0 (part_of force.now)) result }
{
    [
        units(force.fx),
        units(force.fy),
        units(force.fz),
        units(force.mx),
        units(force.my),
        units(force.mz),
    ]
}

/// The parts of a hanger's load.
fn hanger_parts(load: i64) -> [Iv; 6]
    requires { IsIn LOAD load }
    ensures { (node : ℕ) → ArePartsOf (whole_load node (upward load)) result }
{
    let none = units(0);
    [none, none, units(load), none, none, none]
}

/// A part of so many mN or mN m.
fn units(part: i64) -> Iv
    requires { IsIn LOAD part }
    ensures value { units_of part ≡ Ok result }
    ensures within { Within result (in_units part) }
    ensures size { IsOfLoads 1 result }
{
    ratio(point(part as i128), 1 << 40, 1000).unwrap()
}

/// Names the first load that reaches the limit.
fn test_limit(loads: &[Iv]) -> Result<(), LoadFault>
    requires { length loads.now ≤ 2 ^ 32 }
    ensures limited { OnOk result ((row : ℕ) → row < length loads.now → limited_force (load_of loads.now row) ≡ Ok (load_of loads.now row)) }
    ensures wide { (row : ℕ) → result ≡ Err (LoadFault.Wide row) → IsFirstOver loads.now row }
{
    for row in 0..loads.len() {
        if !is_limited(loads[row]) {
            return Err(LoadFault::Wide { row: row as u32 });
        }
    }
    Ok(())
}

/// Whether a load is below the limit in size.
fn is_limited(load: Iv) -> bool
    ensures { limited_force load ≡ (if result then Ok load else Err IvFault.Wide) }
{
    load.lo.unsigned_abs() < FORCE_LIMIT && load.hi.unsigned_abs() < FORCE_LIMIT
}
