ghost use Rattle.std.specs.Prelude.{◌≡◌, ◌<◌, length, map, drop, replicate, [], All, IfOk, IfSome, Some, None, Ok, Err, pos, ◌≤ℤ◌};
ghost use Rattle.lists.specs.Listed.{listed};
ghost use Rattle.lists.specs.Results.{named};
ghost use Rattle.case_run.specs.Answers.{base, unbounded_reason, bounds_in, enclosure_in, answer_with, answers_of};
ghost use Rattle.case_run.specs.Causes.{plan, width_load};
ghost use Rattle.case_run.specs.Reasons.{because};
ghost use Rattle.case_run.specs.Runs.{AreForcesOf, forces_of, forces_with, run_with, shared_structure};
ghost use Rattle.accepted_text.specs.Accepted.{IsModelTree};
ghost use Rattle.elim_tree.specs.Fronts.{parents_in};
ghost use Rattle.model_types.specs.Fits.{bounds_of};
ghost use Rattle.case_run.specs.Contacts.{contacts_of};
ghost use Rattle.case_run.specs.Shared.{IsReady};
ghost use Rattle.certificate.specs.States.{states_around};
ghost use Rattle.member_set.specs.Members.{AreStiff, IsModerate, IsSystem, row_count, system};
ghost use Rattle.model_types.specs.Fits.{AreAnswersOf};
ghost use Rattle.structure.specs.Elements.{element_member_count};
ghost use Rattle.structure.specs.Structure.{IsStructureOf};

use crate::contacts::contact_cause;
use crate::fault::CaseFault;
use crate::maker::{FrontMaker, Maker};
use crate::settle::settled;
use crate::shared::{Shared, share};
use crate::trial::CaseTrial;
use certificate::{EncloseFault, Enclosure, enclose};
use elim_tree::Tree;
use flex_interval::Iv;
use load_vectors::{LoadFault, laws, loads};
use member_set::{Built, Law};
use model_types::{Bounds, CaseAnswer, CaseId, Cause, Model, NoMemory, NodeId, Sequence};
use std::alloc::{AllocError, Global};
use structure::element_member_count;

/// What the load cases of a model come to.
#[derive(Drop)]
pub struct CaseRuns {
    /// The structure that the cases share. None where there is no case, and where no case is certified for a cause that all of
    /// them share.
    pub structure: Option<Built>,
    /// The answer of each case.
    pub answers: Vec<CaseAnswer>,
    /// Bounds of the force of each member, of the elements' and then of the restraints', in each case that is certified, in
    /// units of 2^-40 N or N m.
    pub forces: Vec<Option<Sequence<Iv>>>,
}

/// What a case comes to.
#[derive(Drop)]
pub(crate) struct CaseRun {
    pub(crate) answer: CaseAnswer,
    pub(crate) forces: Option<Sequence<Iv>>,
}

/// The cases of a model, whose nodes are eliminated in the order of its assembly tree. The answer of each has certified bounds
/// and contact states, or the first cause why there are none. Where there is no case, nothing is built.
pub fn runs(alloc: Global, m: &Model, tree: &Tree) -> Result<CaseRuns, NoMemory>
    requires tree { IsModelTree m.now tree.now }
    requires nodes { length tree.now.order ≡ length m.now.nodes }
    ensures given { IfOk result (λ runs. runs.answers.items ≡ answers_of m.now (plan tree.now.order (parents_in tree.now))) }
    ensures fit { IfOk result (λ runs. AreAnswersOf m.now runs.answers.items) }
    ensures forces { IfOk result (λ runs. runs.forces.items ≡ forces_of m.now (plan tree.now.order (parents_in tree.now))) }
    ensures shared { IfOk result (λ runs. runs.structure ≡ shared_structure m.now (plan tree.now.order (parents_in tree.now))) }
    ensures structure { IfOk result (λ runs. IfSome runs.structure (IsStructureOf m.now)) }
    ensures one_each { IfOk result (λ runs. All (AreForcesOf runs.structure) runs.forces.items) }
{
    // The laws by which the answers fit the model, and its matrices the tree.
    bound_laws::passed_test_is_proof();
    certificate::states_are_limited();
    elim_tree::fill_lies_in_rows();
    member_set::states_select_members();
    structure::members_lead_within();
    structure::models_have_their_members();
    structure::states_of_restraints();
    // What every model keeps: it has a node, and not many.
    let _nodes = m.nodes();
    // What every tree keeps: an order of the nodes, and later parents.
    let _later = tree.later(0);
    let _parents = tree.node_parents();
    // Without a case nothing is factorised.
    if m.cases().is_empty() {
        return Ok(CaseRuns {
            structure: None,
            answers: Vec::new(alloc),
            forces: Vec::new(alloc),
        });
    }
    let maker = FrontMaker { alloc, tree };
    match share(alloc, m, &maker) {
        Ok(shared) => each_run(alloc, m, &maker, shared),
        Err(CaseFault::Because(cause)) => same_runs(alloc, m, cause),
        Err(CaseFault::NoMemory) => Err(AllocError),
    }
}

/// The cases where a cause is that of each.
fn same_runs(alloc: Global, m: &Model, cause: Cause) -> Result<CaseRuns, AllocError>
    ensures structure { IfOk result (λ runs. runs.structure ≡ None) }
    ensures answers { IfOk result (λ runs. runs.answers.items ≡ replicate (length m.now.cases) (CaseAnswer.Uncertified cause [])) }
    ensures forces { IfOk result (λ runs. runs.forces.items ≡ replicate (length m.now.cases) None) }
{
    let cases = m.cases().len();
    let mut answers = Vec::with_capacity(alloc, cases)?;
    let mut forces = Vec::with_capacity(alloc, cases)?;
    for _case in 0..cases {
        answers.push(uncertified(alloc, cause))?;
        forces.push(None)?;
    }
    Ok(CaseRuns {
        structure: None,
        answers,
        forces,
    })
}

/// The cases, one by one.
fn each_run<M: Maker>(
    alloc: Global,
    m: &Model,
    maker: &M,
    shared: Shared,
) -> Result<CaseRuns, AllocError>
    requires ready { IsReady m.now (M.plan maker.now) (M.takes maker.now) shared }
    ensures structure { IfOk result (λ runs. runs.structure ≡ Some shared.b) }
    ensures answers { IfOk result (λ runs. runs.answers.items ≡ listed (length m.now.cases) (λ case. answer_with (element_member_count m.now)
        (enclosure_in m.now (M.plan maker.now) case (base shared.b shared.lambda)))) }
    ensures forces { IfOk result (λ runs. runs.forces.items ≡ listed (length m.now.cases) (λ case. forces_with
        (enclosure_in m.now (M.plan maker.now) case (base shared.b shared.lambda)))) }
{
    let cases = m.cases().len();
    let mut answers = Vec::with_capacity(alloc, cases)?;
    let mut forces = Vec::with_capacity(alloc, cases)?;
    for case in 0..cases {
        let case = CaseId(case as u32);
        let run = case_run(alloc, m, case, maker, &shared)?;
        answers.push(run.answer)?;
        forces.push(run.forces)?;
    }
    Ok(CaseRuns {
        structure: Some(shared.b),
        answers,
        forces,
    })
}

/// A case.
fn case_run<M: Maker>(
    alloc: Global,
    m: &Model,
    case: CaseId,
    maker: &M,
    shared: &Shared,
) -> Result<CaseRun, AllocError>
    requires case_in_range { case.0 < length m.now.cases }
    requires ready { IsReady m.now (M.plan maker.now) (M.takes maker.now) shared.now }
    ensures { IfOk result (λ run. run ≡ run_with (element_member_count m.now)
        (enclosure_in m.now (M.plan maker.now) case.0 (base shared.now.b shared.now.lambda))) }
{
    load_vectors::laws_suit_models();
    structure::models_have_their_members();
    let laws = laws(alloc, m, case)?;
    match loads(alloc, m, case) {
        Ok(loads) => settled_run(alloc, m, maker, shared, &laws, &loads),
        Err(LoadFault::Wide { row }) => Ok(unbounded(alloc, load_cause(row))),
        Err(LoadFault::NoMemory) => Err(AllocError),
    }
}

/// The cause that the load of a row leaves its limits.
fn load_cause(row: u32) -> Cause
    ensures { result ≡ width_load row }
{
    Cause::WidthLoad {
        node: NodeId(row / 6),
        freedom: row % 6,
    }
}

/// A case by given laws and under given loads.
fn settled_run<M: Maker>(
    alloc: Global,
    m: &Model,
    maker: &M,
    shared: &Shared,
    laws: &[Law],
    loads: &[Iv],
) -> Result<CaseRun, AllocError>
    requires ready { IsReady m.now (M.plan maker.now) (M.takes maker.now) shared.now }
    requires system { IsSystem (system shared.now.b laws.now loads.now) }
    ensures { IfOk result (λ run. run ≡ run_with (element_member_count m.now)
        (bounds_in m.now (M.plan maker.now) (system shared.now.b laws.now loads.now) shared.now.lambda)) }
{
    structure::states_of_restraints();
    let trial = CaseTrial {
        alloc,
        maker,
        b: &shared.b,
        laws,
        loads,
        start: &shared.start,
        first: &shared.first,
    };
    match settled(&trial) {
        Ok(u) => bounded_run(alloc, m, shared, laws, loads, u),
        Err(CaseFault::Because(cause)) => Ok(unbounded(alloc, cause)),
        Err(CaseFault::NoMemory) => Err(AllocError),
    }
}

/// A case around displacements, one for each row in units of 2^-56 m or rad.
fn bounded_run(
    alloc: Global,
    m: &Model,
    shared: &Shared,
    laws: &[Law],
    loads: &[Iv],
    u: Vec<i128>,
) -> Result<CaseRun, AllocError>
    requires stiff { AreStiff shared.now.b }
    requires positive { pos 1 ≤ℤ shared.now.lambda }
    requires contacts { shared.now.contacts.items ≡ contacts_of m.now }
    requires one_contact_each { length (contacts_of m.now) ≡ length shared.now.b.unilateral }
    requires system { IsSystem (system shared.now.b laws.now loads.now) }
    requires one_displacement_each { length u.items ≡ row_count shared.now.b }
    requires moderate { IsModerate u.items }
    ensures { IfOk result (λ run. run ≡ run_with (element_member_count m.now)
        (named (unbounded_reason m.now u.items) (states_around (system shared.now.b laws.now loads.now) u.items shared.now.lambda))) }
{
    match enclose(alloc, &shared.b, laws, loads, &u, shared.lambda) {
        Ok(e) => certified(alloc, e, element_member_count(m)),
        Err(EncloseFault::Wide) => Ok(unbounded(alloc, Cause::WidthResidual)),
        Err(EncloseFault::State { number }) => Ok(CaseRun {
            answer: CaseAnswer::Uncertified {
                cause: contact_cause(&shared.contacts[number as usize]),
                guess: Sequence::new(u),
            },
            forces: None,
        }),
        Err(EncloseFault::NoMemory) => Err(AllocError),
    }
}

/// A case with bounds and states: of all displacements, and of the forces of the members from `first` on in its answer.
fn certified(alloc: Global, e: Enclosure, first: usize) -> Result<CaseRun, AllocError>
    ensures { IfOk result (λ run. run ≡ run_with first (Ok e)) }
{
    let u = Sequence::new(bounds_from(alloc, e.u.as_slice(), 0)?);
    let loads = Sequence::new(bounds_from(alloc, e.force.as_slice(), first)?);
    Ok(CaseRun {
        answer: CaseAnswer::Certified {
            u,
            loads,
            states: e.closed,
        },
        forces: Some(e.force),
    })
}

/// A case without bounds.
fn unbounded(alloc: Global, cause: Cause) -> CaseRun
    ensures { result ≡ run_with 0 (Err (because cause)) }
{
    CaseRun {
        answer: uncertified(alloc, cause),
        forces: None,
    }
}

/// The answer without bounds.
fn uncertified(alloc: Global, cause: Cause) -> CaseAnswer
    ensures { result ≡ CaseAnswer.Uncertified cause [] }
{
    CaseAnswer::Uncertified {
        cause,
        guess: Sequence::new(Vec::new(alloc)),
    }
}

/// The intervals from `first` on as bounds.
fn bounds_from(alloc: Global, intervals: &[Iv], first: usize) -> Result<Vec<Bounds>, AllocError>
    ensures { IfOk result (λ bounds. bounds.items ≡ map bounds_of (drop first intervals.now)) }
{
    intervals
        .iter()
        .skip(first)
        .map(|e| Bounds { lo: e.lo, hi: e.hi })
        .collect(alloc)
}
