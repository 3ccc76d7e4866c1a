ghost use Rattle.std.specs.Prelude.{◌≡◌, ◌<◌, length, All, IfOk, IfSome, None, Some, pos, ◌≤ℤ◌, if◌then◌else◌};
ghost use Rattle.flex_interval.specs.Ends.{IsInterval};
ghost use Rattle.load_vectors.specs.Cases.{pressure_of};
ghost use Rattle.member_set.specs.declared.members.Built.{Built};
ghost use Rattle.model_types.specs.Fits.{bounds_of, ends_of, IsCheckAnswerIn, AreChecksOf};
ghost use Rattle.structure.specs.Elements.{element_at};
ghost use Rattle.structure.specs.Structure.{IsStructureOf};
ghost use Rattle.code_stress.specs.Actions.{place};
ghost use Rattle.code_stress.specs.Checks.{CaseForces, NoneIsCertified, is_certified, cases_of, first_case, first_uncertified, number_of, pressure_in, stress_of, station_number, judged, station_answer_of, stations_in, check_of, checks_of};
ghost use Rattle.code_stress.specs.Direct.{IsPressure};
ghost use Rattle.code_stress.specs.Meaning.{CasesHold, StressesLieIn, StationHolds, StationsHold, CheckHolds, ChecksHold};
ghost use Rattle.code_stress.specs.Rules.{IsCheckOf, AreForcesOf, AreCertified, IsStationOf, IsFactorOf, StationInOrder, CheckInOrder};

use crate::actions::action_in_check;
use crate::allowances::{allowable, stress_range_factor};
use crate::data::station_data;
use crate::station::station_stress;
use flex_interval::{Iv, IvFault};
use load_vectors::section_pressure;
use member_set::{Built, Station};
use model_types::{
    Bounds, CaseId, CheckAnswer, CheckKind, ElementId, Model, NoMemory, Sequence, StationAnswer,
};
use std::alloc::{AllocError, Global};

/// The answers of a model's checks, in order, by the forces of all members in each case that is certified, in units of 2^-40 N:
/// for each station its stress and its allowable, or the first case of the check that is not certified.
pub fn checks(
    alloc: Global,
    m: &Model,
    b: &Built,
    forces: &[Option<Sequence<Iv>>],
) -> Result<Vec<CheckAnswer>, NoMemory>
    requires structure { IsStructureOf m.now b.now }
    requires forces { AreForcesOf m.now b.now forces.now }
    ensures value { IfOk result (λ answers. answers.items ≡ checks_of m.now b.now forces.now) }
    ensures fit { IfOk result (λ answers. AreChecksOf m.now answers.items) }
    ensures in_order { IfOk result (λ answers. All CheckInOrder answers.items) }
    ensures hold { IfOk result (λ answers. ChecksHold m.now forces.now answers.items) }
{
    let checks = m.checks();
    let mut answers = Vec::with_capacity(alloc, checks.len())?;
    for check in checks {
        let answer = check_answer(alloc, m, b, forces, &answers, &check.kind)?;
        answers.push(answer)?;
    }
    Ok(answers)
}

/// The answer of a check, behind those of the checks before it.
fn check_answer(
    alloc: Global,
    m: &Model,
    b: &Built,
    forces: &[Option<Sequence<Iv>>],
    earlier: &[CheckAnswer],
    kind: &CheckKind,
) -> Result<CheckAnswer, AllocError>
    requires structure { IsStructureOf m.now b.now }
    requires forces { AreForcesOf m.now b.now forces.now }
    requires check { IsCheckOf m.now kind.now }
    requires earlier { All CheckInOrder earlier.now }
    ensures value { IfOk result (λ a. a ≡ check_of m.now b.now forces.now earlier.now kind.now) }
    ensures fit { IfOk result (IsCheckAnswerIn m.now) }
    ensures in_order { IfOk result CheckInOrder }
    ensures holds { IfOk result (λ a. CasesHold m.now forces.now kind.now → CheckHolds m.now earlier.now kind.now a) }
{
    match uncertified_case(forces, kind) {
        Some(case) => Ok(CheckAnswer::Unchecked(case)),
        None => {
            let answers = station_answers(alloc, m, b, forces, earlier, kind)?;
            Ok(CheckAnswer::Stations(Sequence::new(answers)))
        }
    }
}

/// The first case of a check that is not certified.
fn uncertified_case(forces: &[Option<Sequence<Iv>>], kind: &CheckKind) -> Option<CaseId>
    ensures { number_of result ≡ first_uncertified forces.now (cases_of kind.now) }
{
    match *kind {
        CheckKind::Sustained { case, .. } => unless_certified(forces, case),
        CheckKind::Occasional { case, .. } => unless_certified(forces, case),
        CheckKind::Expansion { case1, case2, .. } => {
            unless_certified(forces, case1).or(unless_certified(forces, case2))
        }
    }
}

/// The case, unless it is certified.
fn unless_certified(forces: &[Option<Sequence<Iv>>], case: CaseId) -> Option<CaseId>
    ensures { result ≡ (if is_certified forces.now case.0 then None else Some case) }
{
    match forces.get(case.0 as usize) {
        Some(Some(_forces)) => None,
        _ => Some(case),
    }
}

/// The answers of the stations of a check whose cases are certified.
fn station_answers(
    alloc: Global,
    m: &Model,
    b: &Built,
    forces: &[Option<Sequence<Iv>>],
    earlier: &[CheckAnswer],
    kind: &CheckKind,
) -> Result<Vec<StationAnswer>, AllocError>
    requires structure { IsStructureOf m.now b.now }
    requires forces { AreForcesOf m.now b.now forces.now }
    requires check { IsCheckOf m.now kind.now }
    requires certified { AreCertified forces.now kind.now }
    requires earlier { All CheckInOrder earlier.now }
    ensures value { IfOk result (λ answers. answers.items ≡ stations_in m.now b.now forces.now earlier.now kind.now) }
    ensures in_order { IfOk result (λ answers. All StationInOrder answers.items) }
    ensures hold { IfOk result (λ answers. CasesHold m.now forces.now kind.now → StationsHold m.now b.now forces.now earlier.now kind.now) }
{
    let factor = stress_range_factor(kind);
    let stations = b.stations.as_slice();
    let mut answers = Vec::with_capacity(alloc, stations.len())?;
    for s in stations {
        answers.push(station_answer(m, b, forces, earlier, kind, factor, s))?;
    }
    Ok(answers)
}

/// The answer of a station, with the stress range factor of an expansion check.
fn station_answer(
    m: &Model,
    b: &Built,
    forces: &[Option<Sequence<Iv>>],
    earlier: &[CheckAnswer],
    kind: &CheckKind,
    factor: Iv,
    s: &Station,
) -> StationAnswer
    requires structure { IsStructureOf m.now b.now }
    requires forces { AreForcesOf m.now b.now forces.now }
    requires check { IsCheckOf m.now kind.now }
    requires certified { AreCertified forces.now kind.now }
    requires earlier { All CheckInOrder earlier.now }
    requires factor { IsFactorOf kind.now factor }
    requires station { IsStationOf m.now s.now }
    ensures value { result ≡ station_answer_of m.now b.now forces.now earlier.now kind.now (place s.now.element s.now.end) }
    ensures in_order { StationInOrder result }
    ensures holds { CasesHold m.now forces.now kind.now → StationHolds m.now earlier.now kind.now (place s.now.element s.now.end) result }
{
    let stress = stress_at(m, b, forces, kind, s);
    let allowable = allowable(kind, factor, earlier, station_number(s));
    judged(stress, allowable)
}

/// The number of a station among those of a check.
fn station_number(s: &Station) -> usize
    ensures { result ≡ station_number (place s.now.element s.now.end) }
{
    2 * s.element as usize + usize::from(s.end)
}

/// A stress with its allowable.
fn judged(stress: Result<Iv, IvFault>, allowable: Result<Iv, IvFault>) -> StationAnswer
    requires { IfOk stress (λ e. pos 0 ≤ℤ e.lo) }
    ensures value { result ≡ judged stress allowable }
    ensures in_order { StationInOrder result }
{
    match (stress, allowable) {
        (Ok(stress), Ok(allowable)) => StationAnswer::Judged {
            stress: bounds(stress),
            allowable: bounds(allowable),
        },
        _ => StationAnswer::Wide,
    }
}

fn bounds(e: Iv) -> Bounds
    ensures value { result ≡ bounds_of e }
    ensures interval { IsInterval (ends_of result) }
{
    Bounds { lo: e.lo, hi: e.hi }
}

/// The stress of a station in a check, in units of 2^-16 Pa. Where the pressure counts, the wall is less its allowance.
fn stress_at(
    m: &Model,
    b: &Built,
    forces: &[Option<Sequence<Iv>>],
    kind: &CheckKind,
    s: &Station,
) -> Result<Iv, IvFault>
    requires structure { IsStructureOf m.now b.now }
    requires forces { AreForcesOf m.now b.now forces.now }
    requires check { IsCheckOf m.now kind.now }
    requires certified { AreCertified forces.now kind.now }
    requires station { IsStationOf m.now s.now }
    ensures value { result ≡ stress_of m.now b.now forces.now kind.now (place s.now.element s.now.end) }
    ensures from_zero { IfOk result (λ e. pos 0 ≤ℤ e.lo) }
    ensures holds { IfOk result (λ e. CasesHold m.now forces.now kind.now → StressesLieIn m.now kind.now (place s.now.element s.now.end) e) }
{
    let pressure = pressure_in(m, kind, s);
    let acts = action_in_check(m, b, forces, kind, s)?;
    let station = station_data(m, s, pressure.is_some());
    station_stress(acts, &station, pressure)
}

/// The pressure in the element of a station, in Pa, where the check is a sustained or an occasional one.
fn pressure_in(m: &Model, kind: &CheckKind, s: &Station) -> Option<i64>
    requires check { IsCheckOf m.now kind.now }
    requires station { IsStationOf m.now s.now }
    ensures value { result ≡ pressure_in m.now kind.now (place s.now.element s.now.end) }
    ensures form { IfSome result IsPressure }
{
    match *kind {
        CheckKind::Sustained { case, .. } => Some(station_pressure(m, case, s)),
        CheckKind::Occasional { case, .. } => Some(station_pressure(m, case, s)),
        CheckKind::Expansion { .. } => None,
    }
}

/// The pressure in the element of a station in a case.
fn station_pressure(m: &Model, case: CaseId, s: &Station) -> i64
    requires case_in_range { case.0 < length m.now.cases }
    requires station { IsStationOf m.now s.now }
    ensures value { result ≡ pressure_of m.now case.0 (element_at m.now s.now.element).section.0 }
    ensures form { IsPressure result }
{
    section_pressure(m, case, m.element(ElementId(s.element)).section)
}

/// The answers of the checks of a model of which no case is certified: each names its first case.
pub fn no_checks(alloc: Global, m: &Model) -> Result<Vec<CheckAnswer>, NoMemory>
    ensures value { IfOk result (λ answers. (b : Built) (forces : CaseForces) → NoneIsCertified forces → answers.items ≡ checks_of m.now b forces) }
    ensures fit { IfOk result (λ answers. AreChecksOf m.now answers.items) }
{
    let checks = m.checks();
    let mut answers = Vec::with_capacity(alloc, checks.len())?;
    for check in checks {
        answers.push(CheckAnswer::Unchecked(first_case(&check.kind)))?;
    }
    Ok(answers)
}

/// The first case of a check.
fn first_case(kind: &CheckKind) -> CaseId
    ensures { result.0 ≡ first_case kind.now }
{
    match *kind {
        CheckKind::Sustained { case, .. } => case,
        CheckKind::Occasional { case, .. } => case,
        CheckKind::Expansion { case1, .. } => case1,
    }
}
