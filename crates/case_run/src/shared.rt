ghost use Rattle.std.specs.Prelude.{◌≡◌, length, IfOk};
ghost use Rattle.lists.specs.Results.{Gives};
ghost use Rattle.case_run.specs.Answers.{base, base_of};
ghost use Rattle.case_run.specs.Faults.{reason_told};
ghost use Rattle.case_run.specs.Pattern.{TakesModel};
ghost use Rattle.case_run.specs.Shared.{IsReady};
ghost use Rattle.case_run.specs.Steps.{IsPlan};

use crate::contacts::{Contact, contacts_of, starting_states};
use crate::fault::CaseFault;
use crate::maker::Maker;
use crate::margin::margin_of;
use crate::steps::{matrices_of, structure_of};
use crate::trial::factor_under;
use factor_data::Factor;
use member_set::Built;
use model_types::Model;
use restraint_search::TrialFault;
use std::alloc::Global;

/// What all cases of a model share.
#[derive(Drop)]
pub(crate) struct Shared {
    /// The structure.
    pub(crate) b: Built,
    /// Its contacts, one for each state number.
    pub(crate) contacts: Vec<Contact>,
    /// The states from which the search of each case starts.
    pub(crate) start: Vec<bool>,
    /// The stiffness of no realisation's linear members is below this, in units of 2^-20 N/m.
    pub(crate) lambda: i128,
    /// The factor under the starting states, or why there is none.
    pub(crate) first: Result<Factor, TrialFault>,
}

/// What all cases of a model share, or the first cause for which none of them is certified.
pub(crate) fn share<M: Maker>(alloc: Global, m: &Model, maker: &M) -> Result<Shared, CaseFault>
    requires nodes { length (M.plan maker.now).order ≡ length m.now.nodes }
    requires plan { IsPlan (M.plan maker.now) }
    requires takes_model { TakesModel (M.takes maker.now) m.now }
    ensures ready { IfOk result (IsReady m.now (M.plan maker.now) (M.takes maker.now)) }
    ensures given { Gives (λ s. base s.b s.lambda) reason_told (base_of m.now (M.plan maker.now)) result }
{
    // What every model keeps: its rules.
    let _nodes = m.nodes();
    let b = structure_of(alloc, m)?;
    let (middles, radii) = matrices_of(alloc, &b, &[])?;
    let lambda = margin_of(alloc, maker, &middles, &radii)?;
    let contacts = contacts_of(alloc, m)?;
    let start = starting_states(alloc, &contacts)?;
    let first = factor_under(alloc, maker, &b, &start, true);
    Ok(Shared {
        b,
        contacts,
        start,
        lambda,
        first,
    })
}
