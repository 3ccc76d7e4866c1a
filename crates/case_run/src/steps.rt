ghost use Rattle.std.specs.Prelude.{◌≡◌, length, IfOk, pos, ◌≤ℤ◌, ◌^◌};
ghost use Rattle.member_set.specs.Members.{IsBuilt, built_nodes, AreStiff};
ghost use Rattle.sym_blocks.specs.Matrix.{entry};
ghost use Rattle.assembly.specs.Stiffness.{matrices_of, middle};
ghost use Rattle.factor_data.specs.Columns.{HasDiagonal, factor_entry};
ghost use Rattle.case_run.specs.Steps.{IsFactorable, IsPlan, IsRadiusMatrix};
ghost use Rattle.lists.specs.Results.{named, Gives};
ghost use Rattle.structure.specs.Structure.{IsStructureOf, structure_of};
ghost use Rattle.case_run.specs.Reasons.{element_reason, matrix_reason, factor_at};
ghost use Rattle.case_run.specs.Faults.{reason_told, assemble_fault};
ghost use Rattle.member_set.specs.States.{under};

use crate::fault::CaseFault;
use crate::maker::Maker;
use assembly::{AssembleFault, assemble};
use factor_data::Factor;
use member_set::{Built, states_select_members};
use model_types::Model;
use std::alloc::Global;
use structure::build;
use sym_blocks::SymBlocks;

/// The structure of a model.
pub(crate) fn structure_of(alloc: Global, m: &Model) -> Result<Built, CaseFault>
    ensures given { Gives (λ b. b) reason_told (named element_reason (structure_of m.now)) result }
    ensures structure { IfOk result (IsStructureOf m.now) }
    ensures stiff { IfOk result AreStiff }
{
    Ok(build(alloc, m)?)
}

/// The middles and the radii of the matrix of the members that take part under given states.
pub(crate) fn matrices_of(
    alloc: Global,
    b: &Built,
    closed: &[bool],
) -> Result<(SymBlocks, SymBlocks), CaseFault>
    requires { IsBuilt b.now }
    ensures given { Gives (λ m. (entry m.0, entry m.1)) reason_told (named matrix_reason (matrices_of (under b.now closed.now))) result }
    ensures middles { IfOk result (λ m. entry m.0 ≡ middle (under b.now closed.now)) }
    ensures factorable { IfOk result (λ m. IsFactorable (built_nodes b.now) m.0) }
    ensures radii { IfOk result (λ m. IsRadiusMatrix (built_nodes b.now) m.1) }
{
    Ok(matrices_under(alloc, b, closed)?)
}

/// The same, with the fault of the assembly.
pub(crate) fn matrices_under(
    alloc: Global,
    b: &Built,
    closed: &[bool],
) -> Result<(SymBlocks, SymBlocks), AssembleFault>
    requires { IsBuilt b.now }
    ensures given { Gives (λ m. (entry m.0, entry m.1)) (λ f. reason_told (assemble_fault f)) (named matrix_reason (matrices_of (under b.now closed.now))) result }
    ensures middles { IfOk result (λ m. entry m.0 ≡ middle (under b.now closed.now)) }
    ensures factorable { IfOk result (λ m. IsFactorable (built_nodes b.now) m.0) }
    ensures radii { IfOk result (λ m. IsRadiusMatrix (built_nodes b.now) m.1) }
{
    // The structure under states is built.
    states_select_members();
    assemble(alloc, b, closed)
}

/// The factor of the middles at a shift.
pub(crate) fn factor_of<M: Maker>(
    maker: &M,
    middles: &SymBlocks,
    shift: i128,
) -> Result<Factor, CaseFault>
    requires plan { IsPlan (M.plan maker.now) }
    requires factorable { IsFactorable (length (M.plan maker.now).order) middles.now }
    requires takes { M.takes maker.now (entry middles.now) }
    requires shift_low { pos 0 ≤ℤ shift }
    requires shift_high { shift ≤ℤ pos (2 ^ 44) }
    ensures given { Gives (λ f. factor_entry f) reason_told (factor_at (M.plan maker.now) (entry middles.now) shift) result }
    ensures own_order { IfOk result (λ f. f.order ≡ (M.plan maker.now).order) }
    ensures diagonal { IfOk result HasDiagonal }
{
    Ok(maker.make(middles, shift, false)?)
}
