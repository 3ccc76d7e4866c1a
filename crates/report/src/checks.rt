ghost use Rattle.std.specs.Prelude.{◌≡◌, ◌<◌, [], ◌∷◌, ◌++◌, codes, length, All, OnErr, OnOk};
ghost use Rattle.std.specs.Io.{StartsWith};
ghost use Rattle.std.specs.List.{flat_map};
ghost use Rattle.model_types.specs.Fits.{AreChecksOf, IsCheckAnswerIn, IsStationAnswer};
ghost use Rattle.report.specs.Checks.{case_name, check_lines, judgement_lines, kind_word, result_words};
ghost use Rattle.text_words.specs.Fields.{line};

use crate::stations::{count, push_stations};
use itoa::Buffer;
use model_types::{CaseId, Check, CheckAnswer, CheckKind, Model, NoMemory, StationAnswer};
use stress_terms::Verdict;
use text_words::push_line;

/// Writes the lines of the checks.
pub(crate) fn push_checks(
    out: &mut Vec<u8>,
    m: &Model,
    answers: &[CheckAnswer],
) -> Result<(), NoMemory>
    requires { AreChecksOf m.now answers.now }
    ensures written { OnOk result (out.new.items ≡ out.old.items ++ flat_map line (check_lines m.now m.now.checks answers.now)) }
    ensures kept { OnErr result (StartsWith out.new.items out.old.items) }
{
    let checks = m.checks();
    for (i, check) in checks.iter().enumerate() {
        push_check(out, m, check, &answers[i])?;
    }
    Ok(())
}

/// Writes the lines of a check.
fn push_check(
    out: &mut Vec<u8>,
    m: &Model,
    check: &Check,
    answer: &CheckAnswer,
) -> Result<(), NoMemory>
    requires { IsCheckAnswerIn m.now answer.now }
    ensures written { OnOk result (out.new.items ≡ out.old.items ++ flat_map line (judgement_lines m.now check.now answer.now)) }
    ensures kept { OnErr result (StartsWith out.new.items out.old.items) }
{
    let (name, kind) = (check.name.bytes(), kind_word(&check.kind));
    match answer {
        CheckAnswer::Stations(answers) => {
            push_line(out, &[b"check", name, kind])?;
            push_stations(out, m, answers.as_slice())?;
            push_result(out, answers.as_slice())?;
        }
        CheckAnswer::Unchecked(case) => push_unchecked(out, name, kind, case_name(m, *case))?,
    }
    Ok(())
}

/// Writes the line of a check a case of which is not certified.
fn push_unchecked(out: &mut Vec<u8>, name: &[u8], kind: &[u8], case: &[u8]) -> Result<(), NoMemory>
    ensures written { OnOk result (out.new.items ≡ out.old.items ++ line (codes "check" ∷ name.now ∷ kind.now ∷ codes "unchecked" ∷ case.now ∷ [])) }
    ensures kept { OnErr result (StartsWith out.new.items out.old.items) }
{
    push_line(out, &[b"check", name, kind, b"unchecked", case])
}

/// Writes how many stations pass, fail, are undecided and are wide.
fn push_result(out: &mut Vec<u8>, answers: &[StationAnswer]) -> Result<(), NoMemory>
    requires { All IsStationAnswer answers.now }
    ensures written { OnOk result (out.new.items ≡ out.old.items ++ line (result_words answers.now)) }
    ensures kept { OnErr result (StartsWith out.new.items out.old.items) }
{
    let (mut pass, mut fail) = (Buffer::new(), Buffer::new());
    let (mut undecided, mut wide) = (Buffer::new(), Buffer::new());
    let pass = pass.format(count(answers, Some(Verdict::Pass))).as_bytes();
    let fail = fail.format(count(answers, Some(Verdict::Fail))).as_bytes();
    let undecided = undecided
        .format(count(answers, Some(Verdict::Undecided)))
        .as_bytes();
    let wide = wide.format(count(answers, None)).as_bytes();
    push_line(out, &[b"result", pass, fail, undecided, wide])
}

fn kind_word(kind: &CheckKind) -> &[u8]
    ensures { result.now ≡ kind_word kind.now }
{
    match kind {
        CheckKind::Sustained { .. } => b"sustained",
        CheckKind::Occasional { .. } => b"occasional",
        CheckKind::Expansion { .. } => b"expansion",
    }
}

fn case_name(m: &Model, case: CaseId) -> &[u8]
    requires { case.0 < length m.now.cases }
    ensures { result.now ≡ case_name m.now case.0 }
{
    m.case(case).name.bytes()
}
