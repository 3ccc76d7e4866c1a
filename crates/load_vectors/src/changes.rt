//! What the records of a case change for single sections and anchors.
ghost use Rattle.std.specs.Prelude.{◌≡◌, ◌<◌, ◌==◌, ◌&&◌, length, position, All, IfOk, IfSome};
ghost use Rattle.lists.specs.Listed.{listed};
ghost use Rattle.model_types.specs.Ranges.{IsIn, MoveInForm};
ghost use Rattle.model_types.specs.declared.ranges.TheConstants.{PRESSURE, TEMPERATURE_CHANGE};
ghost use Rattle.load_vectors.specs.Cases.{IsPipeChange, dt_of, pressure_of, move_of, dt_or, p_or, temp_of, pressure_record_of, move_in};

use model_types::{CaseId, Model, Move, Pressure, SectionId, Temp};
use std::alloc::{AllocError, Global};

/// What a case changes in the pipes of a section.
#[derive(Clone, Copy)]
pub(crate) struct PipeChange {
    /// The change of temperature, in millikelvin.
    pub(crate) dt: i64,
    /// The pressure, in Pa.
    pub(crate) p: i64,
}

/// The change of each section in a case.
pub(crate) fn changes_by_section(
    alloc: Global,
    m: &Model,
    case: CaseId,
) -> Result<Vec<PipeChange>, AllocError>
    requires { case.0 < length m.now.cases }
    ensures value { IfOk result (λ changes. changes.items ≡ listed (length m.now.sections) (λ section. record { dt = dt_of m.now case.0 section; p = pressure_of m.now case.0 section })) }
    ensures form { IfOk result (λ changes. All IsPipeChange changes.items) }
{
    let sections = m.sections().len();
    let mut changes = Vec::with_capacity(alloc, sections)?;
    for section in 0..sections {
        changes.push(change_of(m, case, section as u32))?;
    }
    Ok(changes)
}

/// The change of a section in a case.
fn change_of(m: &Model, case: CaseId, section: u32) -> PipeChange
    requires { case.0 < length m.now.cases }
    ensures value { result ≡ record { dt = dt_of m.now case.0 section; p = pressure_of m.now case.0 section } }
    ensures heat { IsIn TEMPERATURE_CHANGE result.dt }
    ensures pressure { IsIn PRESSURE result.p }
{
    let own = m.case(case);
    PipeChange {
        dt: dt_or(temp_of(m.temps(), case.0, section), own.dt),
        p: p_or(pressure_of(m.pressures(), case.0, section), own.p),
    }
}

/// The pressure in the pipes of a section in a case, in Pa.
pub fn section_pressure(m: &Model, case: CaseId, section: SectionId) -> i64
    requires { case.0 < length m.now.cases }
    ensures value { result ≡ pressure_of m.now case.0 section.0 }
    ensures form { IsIn PRESSURE result }
{
    change_of(m, case, section.0).p
}

fn dt_or(temp: Option<Temp>, dt: i64) -> i64
    ensures { result ≡ dt_or temp dt }
{
    match temp {
        Some(temp) => temp.dt,
        None => dt,
    }
}

fn p_or(pressure: Option<Pressure>, p: i64) -> i64
    ensures { result ≡ p_or pressure p }
{
    match pressure {
        Some(pressure) => pressure.p,
        None => p,
    }
}

/// The record of a case's change of temperature for a section.
fn temp_of(temps: &[Temp], case: u32, section: u32) -> Option<Temp>
    ensures { result ≡ temp_of temps.now case section }
{
    temps.get(temp_at(temps, case, section)?).copied()
}

fn temp_at(temps: &[Temp], case: u32, section: u32) -> Option<usize>
    ensures { result ≡ position (λ t. t.case.0 == case && t.section.0 == section) temps.now }
{
    temps
        .iter()
        .position(|t| t.case.0 == case && t.section.0 == section)
}

/// The record of a case's pressure for a section.
fn pressure_of(pressures: &[Pressure], case: u32, section: u32) -> Option<Pressure>
    ensures { result ≡ pressure_record_of pressures.now case section }
{
    pressures
        .get(pressure_at(pressures, case, section)?)
        .copied()
}

fn pressure_at(pressures: &[Pressure], case: u32, section: u32) -> Option<usize>
    ensures { result ≡ position (λ p. p.case.0 == case && p.section.0 == section) pressures.now }
{
    pressures
        .iter()
        .position(|p| p.case.0 == case && p.section.0 == section)
}

/// The movement of a restraint in a case.
pub(crate) fn move_of(m: &Model, case: CaseId, restraint: u32) -> Option<Move>
    ensures value { result ≡ move_of m.now case.0 restraint }
    ensures form { IfSome result MoveInForm }
{
    move_in(m.moves(), case.0, restraint)
}

fn move_in(moves: &[Move], case: u32, restraint: u32) -> Option<Move>
    ensures { result ≡ move_in moves.now case restraint }
{
    moves.get(move_at(moves, case, restraint)?).copied()
}

fn move_at(moves: &[Move], case: u32, restraint: u32) -> Option<usize>
    ensures { result ≡ position (λ v. v.case.0 == case && v.anchor.0 == restraint) moves.now }
{
    moves
        .iter()
        .position(|v| v.case.0 == case && v.anchor.0 == restraint)
}
