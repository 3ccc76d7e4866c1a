ghost use Rattle.std.specs.Prelude.{◌≡◌, ◌++◌, All, OnErr, OnOk, IfOk};
ghost use Rattle.std.specs.Io.{StartsWith};
ghost use Rattle.std.specs.List.{flat_map};
ghost use Rattle.model_types.specs.Fits.{AreAnswersOf, AreChecksOf, FitsModel, IsCauseIn, IsGuessFor};
ghost use Rattle.report.specs.Report.{answer_lines, candidate_lines, case_lines, count_words, head_lines, uncertified_words};
ghost use Rattle.report.specs.Whole.{report_of};
ghost use Rattle.text_words.specs.Fields.{line};

use crate::causes::push_cause;
use crate::checks::push_checks;
use crate::rows::{push_guesses, push_nodes, push_restraints};
use crate::words::push_word;
use itoa::Buffer;
use model_types::{Case, CaseAnswer, Cause, CheckAnswer, Model, NoMemory};
use std::alloc::Global;
use text_words::push_line;

/// The report of a model whose cases and checks have these answers, in order.
pub fn bytes(
    alloc: Global,
    m: &Model,
    cases: &[CaseAnswer],
    checks: &[CheckAnswer],
) -> Result<Vec<u8>, NoMemory>
    requires answers { AreAnswersOf m.now cases.now }
    requires checks { AreChecksOf m.now checks.now }
    ensures { IfOk result (λ bytes. bytes.items ≡ report_of m.now cases.now checks.now) }
{
    let mut out = Vec::new(alloc);
    push_head(&mut out, m)?;
    push_answers(&mut out, m, cases)?;
    push_checks(&mut out, m, checks)?;
    push_line(&mut out, &[b"end"])?;
    Ok(out)
}

/// Writes the two lines at the head.
fn push_head(out: &mut Vec<u8>, m: &Model) -> Result<(), NoMemory>
    ensures written { OnOk result (out.new.items ≡ out.old.items ++ flat_map line (head_lines m.now)) }
    ensures kept { OnErr result (StartsWith out.new.items out.old.items) }
{
    push_line(out, &[b"pipeflex", b"report", b"1"])?;
    push_counts(out, m)
}

fn push_counts(out: &mut Vec<u8>, m: &Model) -> Result<(), NoMemory>
    ensures written { OnOk result (out.new.items ≡ out.old.items ++ line (count_words m.now)) }
    ensures kept { OnErr result (StartsWith out.new.items out.old.items) }
{
    let (mut nodes, mut elements, mut restraints) = (Buffer::new(), Buffer::new(), Buffer::new());
    let (mut cases, mut checks) = (Buffer::new(), Buffer::new());
    let nodes = nodes.format(m.nodes().len()).as_bytes();
    let elements = elements.format(m.elements().len()).as_bytes();
    let restraints = restraints.format(m.restraints().len()).as_bytes();
    let cases = cases.format(m.cases().len()).as_bytes();
    let checks = checks.format(m.checks().len()).as_bytes();
    push_line(out, &[b"model", nodes, elements, restraints, cases, checks])
}

fn push_answers(out: &mut Vec<u8>, m: &Model, answers: &[CaseAnswer]) -> Result<(), NoMemory>
    requires { AreAnswersOf m.now answers.now }
    ensures written { OnOk result (out.new.items ≡ out.old.items ++ flat_map line (case_lines m.now m.now.cases answers.now)) }
    ensures kept { OnErr result (StartsWith out.new.items out.old.items) }
{
    let cases = m.cases();
    for (i, case) in cases.iter().enumerate() {
        push_answer(out, m, case, &answers[i])?;
    }
    Ok(())
}

/// Writes the lines of a case.
fn push_answer(
    out: &mut Vec<u8>,
    m: &Model,
    case: &Case,
    answer: &CaseAnswer,
) -> Result<(), NoMemory>
    requires { FitsModel m.now answer.now }
    ensures written { OnOk result (out.new.items ≡ out.old.items ++ flat_map line (answer_lines m.now case.now answer.now)) }
    ensures kept { OnErr result (StartsWith out.new.items out.old.items) }
{
    match answer {
        CaseAnswer::Certified { u, loads, states } => {
            push_line(out, &[b"case", case.name.bytes(), b"certified"])?;
            push_nodes(out, m.nodes(), u.as_slice())?;
            push_restraints(out, m.restraints(), loads.as_slice(), states.as_slice())?;
        }
        CaseAnswer::Uncertified { cause, guess } => {
            push_uncertified(out, m, case, cause)?;
            push_candidate(out, m, cause, guess.as_slice())?;
        }
    }
    Ok(())
}

/// Writes the line of a case that is not certified.
fn push_uncertified(
    out: &mut Vec<u8>,
    m: &Model,
    case: &Case,
    cause: &Cause,
) -> Result<(), NoMemory>
    requires { IsCauseIn m.now cause.now }
    ensures written { OnOk result (out.new.items ≡ out.old.items ++ line (uncertified_words m.now case.now cause.now)) }
    ensures kept { OnErr result (StartsWith out.new.items out.old.items) }
{
    out.extend_from_slice(b"case")?;
    push_word(out, case.name.bytes())?;
    push_word(out, b"uncertified")?;
    push_cause(out, m, cause)?;
    out.push(b'\n')?;
    Ok(())
}

/// Writes the candidate of a case whose contact state fails.
fn push_candidate(
    out: &mut Vec<u8>,
    m: &Model,
    cause: &Cause,
    guess: &[i128],
) -> Result<(), NoMemory>
    requires { IsGuessFor m.now cause.now guess.now }
    ensures written { OnOk result (out.new.items ≡ out.old.items ++ flat_map line (candidate_lines m.now cause.now guess.now)) }
    ensures kept { OnErr result (StartsWith out.new.items out.old.items) }
{
    if let Cause::State { .. } = cause {
        push_guesses(out, m.nodes(), guess)?;
    }
    Ok(())
}
