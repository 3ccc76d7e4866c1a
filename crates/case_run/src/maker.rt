//! What makes the factors of a model's matrices. Whatever is factorised in a case is factorised here.
ghost use Rattle.std.specs.Prelude.{◌≡◌, ℕ, length, IfOk, pos, ◌≤ℤ◌, ◌^◌};
ghost use Rattle.case_run.specs.Causes.{Plan, plan};
ghost use Rattle.case_run.specs.Faults.{reason_told, scalar_fault};
ghost use Rattle.case_run.specs.Pattern.{IsOnTree};
ghost use Rattle.case_run.specs.Reasons.{factor_at};
ghost use Rattle.case_run.specs.Steps.{IsFactorable, IsPlan};
ghost use Rattle.elim_tree.specs.Fronts.{parents_in};
ghost use Rattle.factor_data.specs.Columns.{HasDiagonal, factor_entry};
ghost use Rattle.int_laws.specs.Matrices.{Entries};
ghost use Rattle.lists.specs.Results.{Gives};
ghost use Rattle.sym_blocks.specs.Matrix.{entry};

use elim_tree::Tree;
use factor::{ScalarFault, fronts};
use factor_data::Factor;
use std::alloc::Global;
use sym_blocks::SymBlocks;

/// Makes factors in one order of the nodes.
pub(crate) trait Maker: Copy {
    /// The order, and the parent of each of its places.
    ghost plan: { Self → Plan };

    /// A matrix of these entries can be factorised.
    ghost takes: { Self → Entries → Type 0 };

    /// The factor of the middles at a shift, from 0 to 2^44 in units of 2^-20 N/m, or the first breakdown. `starting` tells
    /// that the middles are those under the states from which the searches of all cases start.
    fn make(&self, middles: &SymBlocks, shift: i128, starting: bool) -> Result<Factor, ScalarFault>
        requires plan { IsPlan (plan self.now) }
        requires factorable { IsFactorable (length (plan self.now).order) middles.now }
        requires takes { takes self.now (entry middles.now) }
        requires shift_low { pos 0 ≤ℤ shift }
        requires shift_high { shift ≤ℤ pos (2 ^ 44) }
        ensures given { Gives (λ f. factor_entry f) (λ f. reason_told (scalar_fault f)) (factor_at (plan self.now) (entry middles.now) shift) result }
        ensures own_order { IfOk result (λ f. f.order ≡ (plan self.now).order) }
        ensures diagonal { IfOk result HasDiagonal };
}

/// Makes factors by the fronts of an assembly tree, one after another.
#[derive(Clone, Copy)]
pub(crate) struct FrontMaker<'a> {
    pub(crate) alloc: Global,
    pub(crate) tree: &'a Tree,
}

impl Maker for FrontMaker<'_> {
    ghost plan = { λ w. plan w.tree.now.order (parents_in w.tree.now) };

    ghost takes = { λ w. IsOnTree w.tree.now };

    fn make(
        &self,
        middles: &SymBlocks,
        shift: i128,
        _starting: bool,
    ) -> Result<Factor, ScalarFault> {
        let factor = fronts(self.alloc, self.tree, middles, shift)?;
        // What every factor keeps: it is 0 outside its columns' rows.
        let _order = factor.order();
        Ok(factor)
    }
}
