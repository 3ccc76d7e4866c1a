//! The base model, each refusal once, and a draft that is full.
ghost use Rattle.std.specs.Prelude.{IsTrue};
ghost use Rattle.text_words.specs.Names.{IsName};
ghost use Rattle.model_types.specs.Ranges.{InForm, IsIn};
ghost use Rattle.model_types.specs.Refusals.{IsSineFor, IsSineOf};
ghost use Rattle.model_types.specs.declared.answers.Bounds.{Bounds};

use model_types::ranges::{COORDINATE, WALL};
use model_types::{
    AddFault, Bounds, Case, CaseId, Draft, Element, Force, Material, MaterialId, Model, Move, Name,
    Node, NodeId, Pressure, Record, Restraint, RestraintId, RestraintKind, Section, SectionId,
    Shape, Space, Temp,
};
use std::alloc::Global;
use std::process::Abort;

const NO_SINE: Bounds = Bounds { lo: 0, hi: 0 };

fn name(rt: &impl Abort, text: &str) -> Name
    ensures { IsName result }
{
    Name::new(text.as_bytes()).expect(rt, "a name")
}

fn steel(rt: &impl Abort) -> Record
    ensures { InForm result }
{
    Record::Material(Material {
        name: name(rt, "st"),
        e: 200_000,
        nu: 300,
        alpha: 12_000,
        rho: 7850,
    })
}

fn section(rt: &impl Abort, material: u32, t: i64) -> Record
    requires { IsIn WALL t }
    ensures { InForm result }
{
    Record::Section(Section {
        name: name(rt, "s"),
        material: MaterialId(material),
        d: 100_000,
        t,
        allowance: 0,
        extra: 0,
    })
}

fn node(rt: &impl Abort, text: &str, x: i64) -> Record
    requires { IsIn COORDINATE x }
    ensures { InForm result }
{
    Record::Node(Node {
        name: name(rt, text),
        x,
        y: 0,
        z: 0,
    })
}

fn straight(rt: &impl Abort, from: u32, to: u32) -> Record
    ensures { InForm result }
{
    Record::Element(Element {
        name: name(rt, "p"),
        from: NodeId(from),
        to: NodeId(to),
        section: SectionId(0),
        shape: Shape::Straight,
    })
}

fn anchor(rt: &impl Abort, node: u32) -> Record
    ensures { InForm result }
{
    Record::Restraint(Restraint {
        name: name(rt, "A"),
        node: NodeId(node),
        kind: RestraintKind::Anchor { kt: None, kr: None },
    })
}

fn rest(rt: &impl Abort) -> Record
    ensures { InForm result }
{
    Record::Case(Case {
        name: name(rt, "rest"),
        gx: 0,
        gy: 0,
        gz: 0,
        hangers: false,
        dt: 0,
        p: 0,
    })
}

fn force(case: u32, node: u32) -> Record
    ensures { InForm result }
{
    Record::Force(Force {
        case: CaseId(case),
        node: NodeId(node),
        fx: 0,
        fy: 0,
        fz: -1_000_000,
        mx: 0,
        my: 0,
        mz: 0,
    })
}

fn temp(case: u32, section: u32) -> Record
    ensures { InForm result }
{
    Record::Temp(Temp {
        case: CaseId(case),
        section: SectionId(section),
        dt: -1_000_000,
    })
}

fn pressure(case: u32, section: u32) -> Record
    ensures { InForm result }
{
    Record::Pressure(Pressure {
        case: CaseId(case),
        section: SectionId(section),
        p: 100_000_000,
    })
}

fn movement(case: u32, anchor: u32) -> Record
    ensures { InForm result }
{
    Record::Move(Move {
        case: CaseId(case),
        anchor: RestraintId(anchor),
        x: 1_000_000,
        y: 0,
        z: -1_000_000,
    })
}

// A record that isn't a bend is added without a sine.
fn needs_no_sine(candidate: &Record) -> bool
    ensures { IsTrue result → (sine : Bounds) → IsSineFor candidate.now sine }
{
    match candidate {
        Record::Material(_)
        | Record::Section(_)
        | Record::Node(_)
        | Record::Tee(_)
        | Record::Restraint(_)
        | Record::Case(_)
        | Record::Temp(_)
        | Record::Pressure(_)
        | Record::Force(_)
        | Record::Move(_)
        | Record::Check(_) => true,
        Record::Element(element) => is_straight(element.shape),
    }
}

fn is_straight(shape: Shape) -> bool
    ensures { IsTrue result → (sine : Bounds) → IsSineOf shape sine }
{
    match shape {
        Shape::Straight => true,
        Shape::Bend { .. } => false,
    }
}

// The draft takes the record.
fn accept(rt: &impl Abort, draft: &mut Draft, candidate: Record)
    requires { InForm candidate }
{
    assert!(rt; needs_no_sine(&candidate));
    assert!(rt; draft.add(candidate, NO_SINE) == Ok(()));
}

// The records of the base model.
fn base(rt: &impl Abort, number: u32) -> Record
    ensures { InForm result }
{
    match number {
        0 => steel(rt),
        1 => section(rt, 0, 10_000),
        2 => node(rt, "a", 0),
        3 => node(rt, "b", 30_000_000),
        4 => straight(rt, 0, 1),
        5 => anchor(rt, 0),
        6 => rest(rt),
        7 => force(0, 1),
        8 => temp(0, 0),
        9 => pressure(0, 0),
        _ => movement(0, 0),
    }
}

// The draft takes the base model.
fn fill(rt: &impl Abort, draft: &mut Draft) {
    for number in 0..11 {
        accept(rt, draft, base(rt, number));
    }
}

// The draft finds its names, each in its space.
fn find(rt: &impl Abort, draft: &Draft) {
    assert!(rt; draft.count(Space::Node) == 2);
    for (space, text, number) in [
        (Space::Node, "b", Some(1)),
        (Space::Node, "p", None),
        (Space::Element, "p", Some(0)),
    ] {
        assert!(rt; draft.find(space, &name(rt, text)) == number);
    }
}

#[test]
fn takes_a_model(rt: HostRuntime) {
    let mut draft = Draft::new(rt.alloc()).expect(&rt, "memory");
    fill(&rt, &mut draft);
    find(&rt, &draft);
    counts(&rt, &draft.finish().expect(&rt, "a model"));
}

// The base model has so many records of each kind, and no tees and checks.
fn counts(rt: &impl Abort, model: &Model) {
    let found = [
        model.materials().len(),
        model.sections().len(),
        model.nodes().len(),
        model.elements().len(),
        model.restraints().len(),
        model.cases().len(),
        model.forces().len(),
        model.tees().len(),
        model.temps().len(),
        model.pressures().len(),
        model.moves().len(),
        model.checks().len(),
    ];
    assert_eq!(rt; found, [1, 1, 2, 1, 1, 1, 1, 0, 1, 1, 1, 0]);
}

// The number that refuses the record, or nothing where the draft takes it.
fn refusal_of(rt: &impl Abort, draft: &mut Draft, candidate: Record) -> Option<u8>
    requires { InForm candidate }
{
    assert!(rt; needs_no_sine(&candidate));
    match draft.add(candidate, NO_SINE) {
        Ok(()) => None,
        Err(AddFault::Refused(number)) => Some(number),
        Err(AddFault::NoMemory) => panic!(rt; "no memory"),
    }
}

// The draft refuses the record by this number, or takes it.
fn judge(rt: &impl Abort, draft: &mut Draft, candidate: Record, refusal: Option<u8>)
    requires { InForm candidate }
{
    assert!(rt; refusal_of(rt, draft, candidate) == refusal);
}

// Records that are taken or refused one after another.
fn judged(rt: &impl Abort, number: u32) -> Record
    ensures { InForm result }
{
    match number {
        0 | 1 => steel(rt),
        2 => section(rt, 0, 50_000),
        3 => section(rt, u32::MAX, 50_000),
        4 => section(rt, 0, 10_000),
        5 => node(rt, "a", 0),
        6 => node(rt, "b", 30_000_001),
        7 => node(rt, "c", 0),
        8 => straight(rt, 0, u32::MAX),
        9 => straight(rt, 0, 2),
        10 => straight(rt, 0, 1),
        _ => force(u32::MAX, 0),
    }
}

// The draft takes and refuses these records.
fn judge_all(rt: &impl Abort, draft: &mut Draft) {
    for (number, refusal) in [
        (0, None),
        (1, Some(8)),
        (2, Some(13)),
        (3, Some(9)),
        (4, None),
        (5, None),
        (6, None),
        (7, None),
        (8, Some(9)),
        (9, Some(10)),
        (10, Some(11)),
        (11, Some(9)),
    ] {
        judge(rt, draft, judged(rt, number), refusal);
    }
}

#[test]
fn refuses_by_number(rt: HostRuntime) {
    let mut draft = Draft::new(rt.alloc()).expect(&rt, "memory");
    judge_all(&rt, &mut draft);
}

// Records of a case behind the base model, and a gap behind its anchor.
fn changed(rt: &impl Abort, number: u32) -> Record
    ensures { InForm result }
{
    match number {
        0 => temp(0, 0),
        1 => temp(1, 0),
        2 => temp(0, 1),
        3 => pressure(0, 0),
        4 => pressure(u32::MAX, 0),
        5 => movement(0, 0),
        6 => movement(0, 1),
        7 => stop(rt, "g", 0),
        _ => force(0, 1),
    }
}

#[test]
fn refuses_what_a_case_has(rt: HostRuntime) {
    let mut draft = Draft::new(rt.alloc()).expect(&rt, "memory");
    fill(&rt, &mut draft);
    for (number, refusal) in [
        (0, Some(8)),
        (1, Some(9)),
        (2, Some(9)),
        (3, Some(8)),
        (4, Some(9)),
        (5, Some(8)),
        (6, Some(9)),
        (7, None),
        // The restraint is there now, and is no anchor.
        (6, Some(9)),
        (8, None),
    ] {
        judge(&rt, &mut draft, changed(&rt, number), refusal);
    }
}

#[test]
fn fills_up(rt: HostRuntime) {
    let mut draft = Draft::new(rt.alloc()).expect(&rt, "memory");
    fill_up(&rt, rt.alloc(), &mut draft);
    refuse_more(&rt, &mut draft);
}

// The draft takes as many nodes as there may be.
fn fill_up(rt: &impl Abort, alloc: Global, draft: &mut Draft) {
    for i in 0..2000 {
        accept_node(rt, alloc, draft, i);
    }
    assert!(rt; draft.find(Space::Node, &name(rt, "n1234")) == Some(1234));
}

// The full draft refuses one more node, and a name that it has before that.
fn refuse_more(rt: &impl Abort, draft: &mut Draft) {
    for (text, number) in [("one-more", 14), ("n7", 8)] {
        judge(rt, draft, node(rt, text, 0), Some(number));
    }
}

#[test]
fn fills_up_with_stops(rt: HostRuntime) {
    let mut draft = Draft::new(rt.alloc()).expect(&rt, "memory");
    accept(&rt, &mut draft, node(&rt, "a", 0));
    for i in 0..1000 {
        accept_stop(&rt, rt.alloc(), &mut draft, i);
    }
    judge(&rt, &mut draft, stop(&rt, "one-more", 0), Some(14));
    judge(&rt, &mut draft, stop(&rt, "one-more", 1), Some(14));
    judge(&rt, &mut draft, stop(&rt, "r7", 0), Some(8));
    judge(&rt, &mut draft, anchor(&rt, 0), None);
}

// A gap of 0, or a one-way support where the number is odd.
fn stop(rt: &impl Abort, text: &str, number: u32) -> Record
    ensures { InForm result }
{
    let (dx, dy, dz, gap) = (0, 0, -1, 0);
    let k = None;
    let kind = match number % 2 {
        0 => RestraintKind::Gap { dx, dy, dz, gap, k },
        _ => RestraintKind::Oneway { dx, dy, dz, gap, k },
    };
    Record::Restraint(Restraint {
        name: name(rt, text),
        node: NodeId(0),
        kind,
    })
}

// The draft takes a stop whose name is made of its number.
fn accept_stop(rt: &impl Abort, alloc: Global, draft: &mut Draft, number: u32) {
    let text = format!(in alloc; "r{number}").expect(rt, "memory");
    accept(rt, draft, stop(rt, &text, number));
}

// The draft takes a node whose name is made of its number.
fn accept_node(rt: &impl Abort, alloc: Global, draft: &mut Draft, number: u32) {
    let text = format!(in alloc; "n{number}").expect(rt, "memory");
    accept(rt, draft, node(rt, &text, 0));
}
