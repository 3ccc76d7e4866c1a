ghost use Rattle.std.specs.Prelude.{◌≡◌, ◌*◌, ◌++◌, length, slice_index_or, All, OnErr, OnOk};
ghost use Rattle.std.specs.Io.{StartsWith};
ghost use Rattle.std.specs.List.{flat_map};
ghost use Rattle.flex_interval.specs.Ends.{IsInterval};
ghost use Rattle.model_types.specs.Fits.{IsStationAnswer, ends_of};
ghost use Rattle.model_types.specs.declared.answers.StationAnswer.TheVariants.{Wide};
ghost use Rattle.report.specs.Checks.{answer_words, count_of, in_kilopascals, judged_words, outcome_of, station_lines, station_words, verdict_word};
ghost use Rattle.report.specs.Report.{bounds_words};
ghost use Rattle.report.specs.Words.{spaced};
ghost use Rattle.stress_terms.specs.Judgement.{verdict_of};
ghost use Rattle.text_words.specs.Fields.{line};

use crate::rounding::KILOPASCAL;
use crate::words::{push_number, push_word};
use flex_interval::Iv;
use flex_num::{ceil_div, floor_div};
use model_types::{Bounds, Model, NoMemory, StationAnswer};
use stress_terms::{Verdict, verdict_on};

/// Writes a line for each end of each element, of whose stations `answers` has two for each element.
pub(crate) fn push_stations(
    out: &mut Vec<u8>,
    m: &Model,
    answers: &[StationAnswer],
) -> Result<(), NoMemory>
    requires one_each { length answers.now ≡ 2 * length m.now.elements }
    requires fit { All IsStationAnswer answers.now }
    ensures written { OnOk result (out.new.items ≡ out.old.items ++ flat_map line (station_lines m.now (λ k. slice_index_or answers.now k Wide))) }
    ensures kept { OnErr result (StartsWith out.new.items out.old.items) }
{
    let elements = m.elements();
    for (n, element) in elements.iter().enumerate() {
        let name = element.name.bytes();
        let from = 2 * n;
        let to = from + 1;
        push_station(out, name, b"from", &answers[from])?;
        push_station(out, name, b"to", &answers[to])?;
    }
    Ok(())
}

/// Writes the line of a station: the names of its element and of the end, and what is said of it.
fn push_station(
    out: &mut Vec<u8>,
    element: &[u8],
    end: &[u8],
    answer: &StationAnswer,
) -> Result<(), NoMemory>
    requires { IsStationAnswer answer.now }
    ensures written { OnOk result (out.new.items ≡ out.old.items ++ line (station_words element.now end.now answer.now)) }
    ensures kept { OnErr result (StartsWith out.new.items out.old.items) }
{
    out.extend_from_slice(b"station")?;
    push_word(out, element)?;
    push_word(out, end)?;
    push_answer(out, answer)?;
    out.push(b'\n')?;
    Ok(())
}

fn push_answer(out: &mut Vec<u8>, answer: &StationAnswer) -> Result<(), NoMemory>
    requires { IsStationAnswer answer.now }
    ensures written { OnOk result (out.new.items ≡ out.old.items ++ spaced (answer_words answer.now)) }
    ensures kept { OnErr result (StartsWith out.new.items out.old.items) }
{
    match answer {
        StationAnswer::Judged { stress, allowable } => push_judged(out, stress, allowable),
        StationAnswer::Wide => push_word(out, b"wide"),
    }
}

/// Writes a stress and its allowable in kPa, rounded outwards, and the verdict by their ends as they were before.
fn push_judged(out: &mut Vec<u8>, stress: &Bounds, allowable: &Bounds) -> Result<(), NoMemory>
    requires stress { IsInterval (ends_of stress.now) }
    requires allowable { IsInterval (ends_of allowable.now) }
    ensures written { OnOk result (out.new.items ≡ out.old.items ++ spaced (judged_words (in_kilopascals stress.now) (in_kilopascals allowable.now) (verdict_of (ends_of stress.now) (ends_of allowable.now)))) }
    ensures kept { OnErr result (StartsWith out.new.items out.old.items) }
{
    push_stress(out, stress)?;
    push_stress(out, allowable)?;
    push_word(out, verdict_word(verdict(stress, allowable)))
}

/// Writes a stress in kPa, rounded outwards.
fn push_stress(out: &mut Vec<u8>, stress: &Bounds) -> Result<(), NoMemory>
    requires { IsInterval (ends_of stress.now) }
    ensures written { OnOk result (out.new.items ≡ out.old.items ++ spaced (bounds_words (in_kilopascals stress.now))) }
    ensures kept { OnErr result (StartsWith out.new.items out.old.items) }
{
    push_number(out, floor_div(stress.lo, KILOPASCAL))?;
    push_number(out, ceil_div(stress.hi, KILOPASCAL))?;
    Ok(())
}

fn verdict(stress: &Bounds, allowable: &Bounds) -> Verdict
    requires stress { IsInterval (ends_of stress.now) }
    requires allowable { IsInterval (ends_of allowable.now) }
    ensures { result ≡ verdict_of (ends_of stress.now) (ends_of allowable.now) }
{
    verdict_on(interval(stress), interval(allowable))
}

fn interval(b: &Bounds) -> Iv
    requires { IsInterval (ends_of b.now) }
    ensures { result ≡ ends_of b.now }
{
    Iv { lo: b.lo, hi: b.hi }
}

fn verdict_word(verdict: Verdict) -> &'static [u8]
    ensures { result.now ≡ verdict_word verdict }
{
    match verdict {
        Verdict::Pass => b"pass",
        Verdict::Fail => b"fail",
        Verdict::Undecided => b"undecided",
    }
}

/// How many stations have this verdict, or have none where `outcome` is `None`.
pub(crate) fn count(answers: &[StationAnswer], outcome: Option<Verdict>) -> usize
    requires { All IsStationAnswer answers.now }
    ensures { result ≡ count_of outcome answers.now }
{
    let mut count = 0;
    for answer in answers {
        if verdict_at(answer) == outcome {
            count += 1;
        }
    }
    count
}

fn verdict_at(answer: &StationAnswer) -> Option<Verdict>
    requires { IsStationAnswer answer.now }
    ensures { result ≡ outcome_of answer.now }
{
    match answer {
        StationAnswer::Judged { stress, allowable } => Some(verdict(stress, allowable)),
        StationAnswer::Wide => None,
    }
}
