//! The report of the analysis of a model.
ghost use Rattle.std.specs.Prelude.{◌≡◌, ℕ, List, IfOk, IfSome, All, length};
ghost use Rattle.accepted_text.specs.Accepted.{IsAcceptedAs};
ghost use Rattle.case_run.specs.Runs.{AreForcesOf};
ghost use Rattle.code_stress.specs.Checks.{checks_of};
ghost use Rattle.code_stress.specs.Meaning.{ChecksHold};
ghost use Rattle.model_types.specs.Fits.{AreChecksOf};
ghost use Rattle.structure.specs.Structure.{IsStructureOf};
ghost use Rattle.pipeflex_top.specs.Analysis.{Answered, MayAnalyse, built_or_empty};

use crate::answers::Answer;
use crate::tally::tally_of;
use case_run::{CaseRuns, runs};
use code_stress::{checks, no_checks};
use elim_tree::Tree;
use model_types::{CheckAnswer, Model, NoMemory};
use report::bytes;
use std::alloc::Global;

/// The report of a model, whose nodes are eliminated in the order of its assembly tree, with its counts.
pub fn analysis(alloc: Global, model: &Model, tree: &Tree) -> Result<Answer, NoMemory>
    requires { MayAnalyse model.now tree.now }
    ensures { (text : List ℕ) → IsAcceptedAs text model.now tree.now → IfOk result (Answered text) }
{
    // The laws of what the answers, a printed pair and a verdict hold.
    structure::models_have_their_members();
    structure::states_of_restraints();
    case_run::answers_hold();
    case_run::forces_hold();
    report::printed_pairs_hold();
    report::printed_stresses_hold();
    stress_terms::verdicts_hold();
    // What every model keeps: its rules.
    let nodes = model.nodes().len() as u32;
    let runs = runs(alloc, model, tree)?;
    let checks = checks_by(alloc, model, &runs)?;
    let tally = tally_of(&runs.answers);
    let bytes = bytes(alloc, model, &runs.answers, &checks)?;
    Ok(Answer::Report {
        bytes,
        nodes,
        certified: tally.certified,
        uncertified: tally.uncertified,
    })
}

// The answers of a model's checks, by what its cases have come to.
fn checks_by(alloc: Global, model: &Model, runs: &CaseRuns) -> Result<Vec<CheckAnswer>, NoMemory>
    requires structure { IfSome runs.now.structure (IsStructureOf model.now) }
    requires one_each { length runs.now.forces.items ≡ length model.now.cases }
    requires one_a_member { All (AreForcesOf runs.now.structure) runs.now.forces.items }
    ensures value { IfOk result (λ checks. checks.items ≡ checks_of model.now (built_or_empty runs.now.structure) runs.now.forces.items) }
    ensures fit { IfOk result (λ checks. AreChecksOf model.now checks.items) }
    ensures hold { IfOk result (λ checks. ChecksHold model.now runs.now.forces.items checks.items) }
{
    match &runs.structure {
        Some(structure) => checks(alloc, model, structure, &runs.forces),
        None => no_checks(alloc, model),
    }
}
