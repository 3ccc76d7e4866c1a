//! The records: what a line's words give, or the number that refuses them.
ghost use Rattle.std.specs.Prelude.{◌≡◌, IfOk};
ghost use Rattle.model_types.specs.Lists.{Lists};
ghost use Rattle.model_types.specs.Ranges.{InForm};
ghost use Rattle.model_text.specs.Records as record_of;
ghost use Rattle.model_text.specs.Rows as row_of;

use crate::fields::{
    angle_at, connection_of, direction_of, flag_at, is_default, name_at, number_in,
    number_or_default, refuse_if,
};
use crate::words::Words;
use model_types::ranges::{
    ACCELERATION, ALLOWABLE_STRESS, BEND_RADIUS, COORDINATE, CORNER, CYCLE_FACTOR, CYCLES, DENSITY,
    DIAMETER, EXPANSION, EXTRA_WEIGHT, GAP, HANGER_LOAD, LOAD, MODULUS, MOVEMENT,
    OCCASIONAL_PERCENT, POISSON_RATIO, PRESSURE, STIFFNESS, TEMPERATURE_CHANGE, WALL,
    WALL_ALLOWANCE,
};
use model_types::{
    Case, CaseId, Check, CheckId, CheckKind, Draft, Element, ElementId, Force, Material,
    MaterialId, Move, Node, NodeId, Pressure, Record, Restraint, RestraintId, RestraintKind,
    Section, SectionId, Shape, Space, Tee, Temp,
};

/// The forms of records, each with a first word of its own.
#[derive(Clone, Copy)]
pub(crate) enum Form {
    Material,
    Section,
    Node,
    Straight,
    Bend,
    Tee,
    Anchor,
    Linear,
    Twist,
    Oneway,
    Gap,
    Hanger,
    Case,
    Temp,
    Pressure,
    Force,
    Move,
    Sustained,
    Occasional,
    Expansion,
}

/// The form of a line, told by its first word, and for a check by its third; or the number that refuses the line: 4, 5 or 9.
#[tactic(auto, unfolding(crate::specs::Rows::form_of))]
pub(crate) fn form_of(line: &Words) -> Result<Form, u8>
    ensures { result ≡ row_of.form_of line.now }
{
    match form_told_by(line.word(0)) {
        Some(form) => Ok(form),
        None => untold_form(line),
    }
}

// The form of a line that its first word doesn't tell.
fn untold_form(line: &Words) -> Result<Form, u8>
    ensures { result ≡ row_of.untold_form line.now }
{
    if line.word(0) != b"check".as_slice() {
        return Err(4);
    }
    refuse_if(line.count() < 3, 5)?;
    check_form(line.word(2))
}

// The form of a check, by the word of its kind.
fn check_form(kind: &[u8]) -> Result<Form, u8>
    ensures { result ≡ row_of.check_form kind.now }
{
    if kind == b"sustained".as_slice() {
        return Ok(Form::Sustained);
    }
    if kind == b"occasional".as_slice() {
        return Ok(Form::Occasional);
    }
    if kind == b"expansion".as_slice() {
        return Ok(Form::Expansion);
    }
    Err(9)
}

// The form that a first word tells.
fn form_told_by(word: &[u8]) -> Option<Form>
    ensures { result ≡ row_of.form_among word.now row_of.forms }
{
    if word == b"material".as_slice() {
        return Some(Form::Material);
    }
    if word == b"section".as_slice() {
        return Some(Form::Section);
    }
    if word == b"node".as_slice() {
        return Some(Form::Node);
    }
    if word == b"straight".as_slice() {
        return Some(Form::Straight);
    }
    if word == b"bend".as_slice() {
        return Some(Form::Bend);
    }
    if word == b"tee".as_slice() {
        return Some(Form::Tee);
    }
    if word == b"anchor".as_slice() {
        return Some(Form::Anchor);
    }
    if word == b"linear".as_slice() {
        return Some(Form::Linear);
    }
    if word == b"twist".as_slice() {
        return Some(Form::Twist);
    }
    if word == b"oneway".as_slice() {
        return Some(Form::Oneway);
    }
    if word == b"gap".as_slice() {
        return Some(Form::Gap);
    }
    if word == b"hanger".as_slice() {
        return Some(Form::Hanger);
    }
    if word == b"case".as_slice() {
        return Some(Form::Case);
    }
    if word == b"temp".as_slice() {
        return Some(Form::Temp);
    }
    if word == b"pressure".as_slice() {
        return Some(Form::Pressure);
    }
    if word == b"force".as_slice() {
        return Some(Form::Force);
    }
    if word == b"move".as_slice() {
        return Some(Form::Move);
    }
    None
}

/// The record of a line that has words, or the number that refuses it: 4, 5, 6, 7, or 9 for a kind word that is none.
pub(crate) fn record_of_words(draft: &Draft, line: &Words) -> Result<Record, u8>
    ensures value { result ≡ record_of.record_of_words draft.now line.now }
    ensures form { IfOk result InForm }
{
    let form = form_of(line)?;
    record_in(draft, form, line)
}

// The record of a line in that form.
fn record_in(draft: &Draft, form: Form, line: &Words) -> Result<Record, u8>
    ensures value { result ≡ row_of.record_in draft.now form line.now }
    ensures form { IfOk result InForm }
{
    match form {
        Form::Material => material(line),
        Form::Section => section(draft, line),
        Form::Node => node(line),
        Form::Straight => straight(draft, line),
        Form::Bend => bend(draft, line),
        Form::Tee => tee(draft, line),
        Form::Anchor => anchor(draft, line),
        Form::Linear => linear(draft, line),
        Form::Twist => twist(draft, line),
        Form::Oneway => oneway(draft, line),
        Form::Gap => gap(draft, line),
        Form::Hanger => hanger(draft, line),
        Form::Case => case(line),
        Form::Temp => temp(draft, line),
        Form::Pressure => pressure(draft, line),
        Form::Force => force(draft, line),
        Form::Move => movement(draft, line),
        Form::Sustained => sustained(draft, line),
        Form::Occasional => occasional(draft, line),
        Form::Expansion => expansion(draft, line),
    }
}

// The number of the record that a word names, or 4294967295, which is no record's: 7 where the word isn't a name.
fn number_named(draft: &Draft, space: Space, word: &[u8]) -> Result<u32, u8>
    ensures { result ≡ row_of.number_named draft.now space word.now }
{
    let name = name_at(word)?;
    Ok(draft.find(space, &name).unwrap_or(u32::MAX))
}

// The check that a word names, as above, or `None` where it is `-`.
fn check_named(draft: &Draft, word: &[u8]) -> Result<Option<CheckId>, u8>
    ensures { result ≡ row_of.check_named draft.now word.now }
{
    if is_default(word) {
        return Ok(None);
    }
    let number = number_named(draft, Space::Check, word)?;
    Ok(Some(CheckId(number)))
}

// material NAME E NU ALPHA RHO
fn material(line: &Words) -> Result<Record, u8>
    ensures value { (m : Lists) → result ≡ row_of.record_in m Form.Material line.now }
    ensures form { IfOk result InForm }
{
    refuse_if(line.count() != 6, 5)?;
    let name = name_at(line.word(1))?;
    let e = number_in(line.word(2), MODULUS)?;
    let nu = number_in(line.word(3), POISSON_RATIO)?;
    let alpha = number_in(line.word(4), EXPANSION)?;
    let rho = number_in(line.word(5), DENSITY)?;
    Ok(Record::Material(Material {
        name,
        e,
        nu,
        alpha,
        rho,
    }))
}

// section NAME MATERIAL D T ALLOWANCE EXTRA
fn section(draft: &Draft, line: &Words) -> Result<Record, u8>
    ensures value { result ≡ row_of.record_in draft.now Form.Section line.now }
    ensures form { IfOk result InForm }
{
    refuse_if(line.count() != 7, 5)?;
    let name = name_at(line.word(1))?;
    let material = MaterialId(number_named(draft, Space::Material, line.word(2))?);
    let d = number_in(line.word(3), DIAMETER)?;
    let t = number_in(line.word(4), WALL)?;
    let allowance = number_in(line.word(5), WALL_ALLOWANCE)?;
    let extra = number_in(line.word(6), EXTRA_WEIGHT)?;
    Ok(Record::Section(Section {
        name,
        material,
        d,
        t,
        allowance,
        extra,
    }))
}

// node NAME X Y Z
fn node(line: &Words) -> Result<Record, u8>
    ensures value { (m : Lists) → result ≡ row_of.record_in m Form.Node line.now }
    ensures form { IfOk result InForm }
{
    refuse_if(line.count() != 5, 5)?;
    let name = name_at(line.word(1))?;
    let x = number_in(line.word(2), COORDINATE)?;
    let y = number_in(line.word(3), COORDINATE)?;
    let z = number_in(line.word(4), COORDINATE)?;
    Ok(Record::Node(Node { name, x, y, z }))
}

// straight NAME FROM TO SECTION
fn straight(draft: &Draft, line: &Words) -> Result<Record, u8>
    ensures value { result ≡ row_of.record_in draft.now Form.Straight line.now }
    ensures form { IfOk result InForm }
{
    refuse_if(line.count() != 5, 5)?;
    let name = name_at(line.word(1))?;
    let from = NodeId(number_named(draft, Space::Node, line.word(2))?);
    let to = NodeId(number_named(draft, Space::Node, line.word(3))?);
    let section = SectionId(number_named(draft, Space::Section, line.word(4))?);
    Ok(Record::Element(Element {
        name,
        from,
        to,
        section,
        shape: Shape::Straight,
    }))
}

// bend NAME FROM TO SECTION R ANGLE PX PY PZ
fn bend(draft: &Draft, line: &Words) -> Result<Record, u8>
    ensures value { result ≡ row_of.record_in draft.now Form.Bend line.now }
    ensures form { IfOk result InForm }
{
    refuse_if(line.count() != 10, 5)?;
    let name = name_at(line.word(1))?;
    let from = NodeId(number_named(draft, Space::Node, line.word(2))?);
    let to = NodeId(number_named(draft, Space::Node, line.word(3))?);
    let section = SectionId(number_named(draft, Space::Section, line.word(4))?);
    let r = number_in(line.word(5), BEND_RADIUS)?;
    let angle = angle_at(line.word(6))?;
    let px = number_in(line.word(7), CORNER)?;
    let py = number_in(line.word(8), CORNER)?;
    let pz = number_in(line.word(9), CORNER)?;
    let shape = Shape::Bend {
        r,
        angle,
        px,
        py,
        pz,
    };
    Ok(Record::Element(Element {
        name,
        from,
        to,
        section,
        shape,
    }))
}

// tee NODE BRANCH HEADER KIND VALUE
fn tee(draft: &Draft, line: &Words) -> Result<Record, u8>
    ensures value { result ≡ row_of.record_in draft.now Form.Tee line.now }
    ensures form { IfOk result InForm }
{
    refuse_if(line.count() != 6, 5)?;
    let node = NodeId(number_named(draft, Space::Node, line.word(1))?);
    let branch = ElementId(number_named(draft, Space::Element, line.word(2))?);
    let header = SectionId(number_named(draft, Space::Section, line.word(3))?);
    let kind = connection_of(line)?;
    Ok(Record::Tee(Tee {
        node,
        branch,
        header,
        kind,
    }))
}

// anchor NAME NODE KT KR
fn anchor(draft: &Draft, line: &Words) -> Result<Record, u8>
    ensures value { result ≡ row_of.record_in draft.now Form.Anchor line.now }
    ensures form { IfOk result InForm }
{
    refuse_if(line.count() != 5, 5)?;
    let name = name_at(line.word(1))?;
    let node = NodeId(number_named(draft, Space::Node, line.word(2))?);
    let kt = number_or_default(line.word(3), STIFFNESS)?;
    let kr = number_or_default(line.word(4), STIFFNESS)?;
    let kind = RestraintKind::Anchor { kt, kr };
    Ok(Record::Restraint(Restraint { name, node, kind }))
}

// linear NAME NODE DX DY DZ K
fn linear(draft: &Draft, line: &Words) -> Result<Record, u8>
    ensures value { result ≡ row_of.record_in draft.now Form.Linear line.now }
    ensures form { IfOk result InForm }
{
    refuse_if(line.count() != 7, 5)?;
    let name = name_at(line.word(1))?;
    let node = NodeId(number_named(draft, Space::Node, line.word(2))?);
    let d = direction_of(line)?;
    let k = number_or_default(line.word(6), STIFFNESS)?;
    let kind = RestraintKind::Linear {
        dx: d.x,
        dy: d.y,
        dz: d.z,
        k,
    };
    Ok(Record::Restraint(Restraint { name, node, kind }))
}

// twist NAME NODE DX DY DZ K
fn twist(draft: &Draft, line: &Words) -> Result<Record, u8>
    ensures value { result ≡ row_of.record_in draft.now Form.Twist line.now }
    ensures form { IfOk result InForm }
{
    refuse_if(line.count() != 7, 5)?;
    let name = name_at(line.word(1))?;
    let node = NodeId(number_named(draft, Space::Node, line.word(2))?);
    let d = direction_of(line)?;
    let k = number_or_default(line.word(6), STIFFNESS)?;
    let kind = RestraintKind::Twist {
        dx: d.x,
        dy: d.y,
        dz: d.z,
        k,
    };
    Ok(Record::Restraint(Restraint { name, node, kind }))
}

// oneway NAME NODE DX DY DZ GAP K
fn oneway(draft: &Draft, line: &Words) -> Result<Record, u8>
    ensures value { result ≡ row_of.record_in draft.now Form.Oneway line.now }
    ensures form { IfOk result InForm }
{
    refuse_if(line.count() != 8, 5)?;
    let name = name_at(line.word(1))?;
    let node = NodeId(number_named(draft, Space::Node, line.word(2))?);
    let d = direction_of(line)?;
    let gap = number_in(line.word(6), GAP)?;
    let k = number_or_default(line.word(7), STIFFNESS)?;
    let kind = RestraintKind::Oneway {
        dx: d.x,
        dy: d.y,
        dz: d.z,
        gap,
        k,
    };
    Ok(Record::Restraint(Restraint { name, node, kind }))
}

// gap NAME NODE DX DY DZ GAP K
fn gap(draft: &Draft, line: &Words) -> Result<Record, u8>
    ensures value { result ≡ row_of.record_in draft.now Form.Gap line.now }
    ensures form { IfOk result InForm }
{
    refuse_if(line.count() != 8, 5)?;
    let name = name_at(line.word(1))?;
    let node = NodeId(number_named(draft, Space::Node, line.word(2))?);
    let d = direction_of(line)?;
    let gap = number_in(line.word(6), GAP)?;
    let k = number_or_default(line.word(7), STIFFNESS)?;
    let kind = RestraintKind::Gap {
        dx: d.x,
        dy: d.y,
        dz: d.z,
        gap,
        k,
    };
    Ok(Record::Restraint(Restraint { name, node, kind }))
}

// hanger NAME NODE RATE LOAD
fn hanger(draft: &Draft, line: &Words) -> Result<Record, u8>
    ensures value { result ≡ row_of.record_in draft.now Form.Hanger line.now }
    ensures form { IfOk result InForm }
{
    refuse_if(line.count() != 5, 5)?;
    let name = name_at(line.word(1))?;
    let node = NodeId(number_named(draft, Space::Node, line.word(2))?);
    let rate = number_in(line.word(3), STIFFNESS)?;
    let load = number_in(line.word(4), HANGER_LOAD)?;
    let kind = RestraintKind::Hanger { rate, load };
    Ok(Record::Restraint(Restraint { name, node, kind }))
}

// case NAME GX GY GZ HANGERS DT P
fn case(line: &Words) -> Result<Record, u8>
    ensures value { (m : Lists) → result ≡ row_of.record_in m Form.Case line.now }
    ensures form { IfOk result InForm }
{
    refuse_if(line.count() != 8, 5)?;
    let name = name_at(line.word(1))?;
    let gx = number_in(line.word(2), ACCELERATION)?;
    let gy = number_in(line.word(3), ACCELERATION)?;
    let gz = number_in(line.word(4), ACCELERATION)?;
    let hangers = flag_at(line.word(5))?;
    let dt = number_in(line.word(6), TEMPERATURE_CHANGE)?;
    let p = number_in(line.word(7), PRESSURE)?;
    Ok(Record::Case(Case {
        name,
        gx,
        gy,
        gz,
        hangers,
        dt,
        p,
    }))
}

// temp CASE SECTION DT
fn temp(draft: &Draft, line: &Words) -> Result<Record, u8>
    ensures value { result ≡ row_of.record_in draft.now Form.Temp line.now }
    ensures form { IfOk result InForm }
{
    refuse_if(line.count() != 4, 5)?;
    let case = CaseId(number_named(draft, Space::Case, line.word(1))?);
    let section = SectionId(number_named(draft, Space::Section, line.word(2))?);
    let dt = number_in(line.word(3), TEMPERATURE_CHANGE)?;
    Ok(Record::Temp(Temp { case, section, dt }))
}

// pressure CASE SECTION P
fn pressure(draft: &Draft, line: &Words) -> Result<Record, u8>
    ensures value { result ≡ row_of.record_in draft.now Form.Pressure line.now }
    ensures form { IfOk result InForm }
{
    refuse_if(line.count() != 4, 5)?;
    let case = CaseId(number_named(draft, Space::Case, line.word(1))?);
    let section = SectionId(number_named(draft, Space::Section, line.word(2))?);
    let p = number_in(line.word(3), PRESSURE)?;
    Ok(Record::Pressure(Pressure { case, section, p }))
}

// force CASE NODE FX FY FZ MX MY MZ
fn force(draft: &Draft, line: &Words) -> Result<Record, u8>
    ensures value { result ≡ row_of.record_in draft.now Form.Force line.now }
    ensures form { IfOk result InForm }
{
    refuse_if(line.count() != 9, 5)?;
    let case = CaseId(number_named(draft, Space::Case, line.word(1))?);
    let node = NodeId(number_named(draft, Space::Node, line.word(2))?);
    let fx = number_in(line.word(3), LOAD)?;
    let fy = number_in(line.word(4), LOAD)?;
    let fz = number_in(line.word(5), LOAD)?;
    let mx = number_in(line.word(6), LOAD)?;
    let my = number_in(line.word(7), LOAD)?;
    let mz = number_in(line.word(8), LOAD)?;
    Ok(Record::Force(Force {
        case,
        node,
        fx,
        fy,
        fz,
        mx,
        my,
        mz,
    }))
}

// move CASE ANCHOR X Y Z
fn movement(draft: &Draft, line: &Words) -> Result<Record, u8>
    ensures value { result ≡ row_of.record_in draft.now Form.Move line.now }
    ensures form { IfOk result InForm }
{
    refuse_if(line.count() != 6, 5)?;
    let case = CaseId(number_named(draft, Space::Case, line.word(1))?);
    let anchor = RestraintId(number_named(draft, Space::Restraint, line.word(2))?);
    let x = number_in(line.word(3), MOVEMENT)?;
    let y = number_in(line.word(4), MOVEMENT)?;
    let z = number_in(line.word(5), MOVEMENT)?;
    Ok(Record::Move(Move {
        case,
        anchor,
        x,
        y,
        z,
    }))
}

// check NAME sustained CASE SH
fn sustained(draft: &Draft, line: &Words) -> Result<Record, u8>
    ensures value { result ≡ row_of.record_in draft.now Form.Sustained line.now }
    ensures form { IfOk result InForm }
{
    refuse_if(line.count() != 5, 5)?;
    let name = name_at(line.word(1))?;
    let case = CaseId(number_named(draft, Space::Case, line.word(3))?);
    let sh = number_in(line.word(4), ALLOWABLE_STRESS)?;
    let kind = CheckKind::Sustained { case, sh };
    Ok(Record::Check(Check { name, kind }))
}

// check NAME occasional CASE SH PERCENT
fn occasional(draft: &Draft, line: &Words) -> Result<Record, u8>
    ensures value { result ≡ row_of.record_in draft.now Form.Occasional line.now }
    ensures form { IfOk result InForm }
{
    refuse_if(line.count() != 6, 5)?;
    let name = name_at(line.word(1))?;
    let case = CaseId(number_named(draft, Space::Case, line.word(3))?);
    let sh = number_in(line.word(4), ALLOWABLE_STRESS)?;
    let percent = number_or_default(line.word(5), OCCASIONAL_PERCENT)?;
    let kind = CheckKind::Occasional { case, sh, percent };
    Ok(Record::Check(Check { name, kind }))
}

// check NAME expansion CASE1 CASE2 SC SH CYCLES FM SUS
fn expansion(draft: &Draft, line: &Words) -> Result<Record, u8>
    ensures value { result ≡ row_of.record_in draft.now Form.Expansion line.now }
    ensures form { IfOk result InForm }
{
    refuse_if(line.count() != 10, 5)?;
    let name = name_at(line.word(1))?;
    let case1 = CaseId(number_named(draft, Space::Case, line.word(3))?);
    let case2 = CaseId(number_named(draft, Space::Case, line.word(4))?);
    let sc = number_in(line.word(5), ALLOWABLE_STRESS)?;
    let sh = number_in(line.word(6), ALLOWABLE_STRESS)?;
    let cycles = number_in(line.word(7), CYCLES)?;
    let fm = number_in(line.word(8), CYCLE_FACTOR)?;
    let sus = check_named(draft, line.word(9))?;
    let kind = CheckKind::Expansion {
        case1,
        case2,
        sc,
        sh,
        cycles,
        fm,
        sus,
    };
    Ok(Record::Check(Check { name, kind }))
}
