//! The canonical text of a model.
ghost use Rattle.std.specs.Prelude.{◌≡◌, ◌≤◌, [], ◌∷◌, ◌++◌, map, length, codes, Ok, IfOk, OnOk};
ghost use Rattle.std.specs.Fmt.{signed_decimal};
ghost use Rattle.model_types.specs.declared.ids.Space.TheVariants as space_of;
ghost use Rattle.model_types.specs.declared.records.Record.{Record};
ghost use Rattle.model_types.specs.declared.records.Record.TheVariants as record_of;
ghost use Rattle.model_text.specs.Canonical as text_of;
ghost use Rattle.model_text.specs.RoundTrip.{CanonicalReadsBack};
ghost use Rattle.model_text.specs.Rows as row_of;
ghost use Rattle.model_text.specs.Grammar.{parsed};
ghost use Rattle.text_words.specs.Fields.{line};

use crate::reader::LONGEST_TEXT;
use itoa::Buffer;
use model_types::{
    Case, CaseId, Check, CheckId, CheckKind, Element, ElementId, Force, Material, MaterialId,
    Model, Move, NoMemory, Node, NodeId, Pressure, Restraint, RestraintId, RestraintKind, Section,
    SectionId, Shape, Tee, TeeKind, Temp, records_follow, tees_are_judged,
};
use std::alloc::Global;
use text_words::push_line;

/// The canonical text: the header, then the records by kind, each kind in text order, with single spaces and no comment. A default
/// stays written as `-`.
///
/// [`read`](crate::read) makes the same model of it, if it has at most 4,194,304 bytes.
pub fn echo(alloc: Global, model: &Model) -> Result<Vec<u8>, NoMemory>
    ensures canonical { IfOk result (λ text. text.items ≡ text_of.canonical model.now) }
    ensures reads_back { IfOk result (λ text. length text.items ≤ LONGEST_TEXT → parsed text.items ≡ Ok model.now) }
{
    // Each list of a model says that the model keeps the rules, and the laws that its records can be read in order and that no
    // tee is broken.
    let _nodes = model.nodes();
    records_follow();
    tees_are_judged();
    all_lines(alloc, model)
}

/// The law of the canonical text: each model's, if it has at most 4,194,304 bytes, is read as the model.
pub fn canonical_reads_back()
    ensures { CanonicalReadsBack }
{
    records_follow();
    tees_are_judged();
}

// The header and the records, line by line.
#[tactic(auto, unfolding(crate::specs::Canonical::canonical))]
fn all_lines(alloc: Global, model: &Model) -> Result<Vec<u8>, NoMemory>
    ensures { IfOk result (λ text. text.items ≡ text_of.canonical model.now) }
{
    let mut out = Vec::new(alloc);
    push_line(&mut out, &[b"pipeflex", b"1"])?;
    put_all(&mut out, model, model.materials())?;
    put_all(&mut out, model, model.sections())?;
    put_all(&mut out, model, model.nodes())?;
    put_all(&mut out, model, model.elements())?;
    put_all(&mut out, model, model.tees())?;
    put_all(&mut out, model, model.restraints())?;
    put_all(&mut out, model, model.cases())?;
    put_all(&mut out, model, model.temps())?;
    put_all(&mut out, model, model.pressures())?;
    put_all(&mut out, model, model.forces())?;
    put_all(&mut out, model, model.moves())?;
    put_all(&mut out, model, model.checks())?;
    Ok(out)
}

// A record that is written as a line.
trait Lined {
    ghost as_record: { Self → Record };

    fn put(&self, out: &mut Vec<u8>, model: &Model) -> Result<(), NoMemory>
        ensures { OnOk result (out.new.items ≡ out.old.items ++ line (row_of.words_of model.now (as_record self.now))) };
}

// The lines of the records of a kind.
fn put_all<T: Lined>(out: &mut Vec<u8>, model: &Model, records: &[T]) -> Result<(), NoMemory>
    ensures { OnOk result (out.new.items ≡ out.old.items ++ text_of.record_lines model.now T.as_record records.now) }
{
    for r in records {
        r.put(out, model)?;
    }
    Ok(())
}

impl Lined for Material {
    ghost as_record = { record_of.Material };

    fn put(&self, out: &mut Vec<u8>, _model: &Model) -> Result<(), NoMemory> {
        let (mut e, mut nu) = (Buffer::new(), Buffer::new());
        let (mut alpha, mut rho) = (Buffer::new(), Buffer::new());
        push_line(
            out,
            &[
                b"material",
                self.name.bytes(),
                e.format(self.e).as_bytes(),
                nu.format(self.nu).as_bytes(),
                alpha.format(self.alpha).as_bytes(),
                rho.format(self.rho).as_bytes(),
            ],
        )
    }
}

impl Lined for Section {
    ghost as_record = { record_of.Section };

    fn put(&self, out: &mut Vec<u8>, model: &Model) -> Result<(), NoMemory> {
        let (mut d, mut t) = (Buffer::new(), Buffer::new());
        let (mut allowance, mut extra) = (Buffer::new(), Buffer::new());
        push_line(
            out,
            &[
                b"section",
                self.name.bytes(),
                material_name(model, self.material),
                d.format(self.d).as_bytes(),
                t.format(self.t).as_bytes(),
                allowance.format(self.allowance).as_bytes(),
                extra.format(self.extra).as_bytes(),
            ],
        )
    }
}

impl Lined for Node {
    ghost as_record = { record_of.Node };

    fn put(&self, out: &mut Vec<u8>, _model: &Model) -> Result<(), NoMemory> {
        let (mut x, mut y) = (Buffer::new(), Buffer::new());
        let mut z = Buffer::new();
        push_line(
            out,
            &[
                b"node",
                self.name.bytes(),
                x.format(self.x).as_bytes(),
                y.format(self.y).as_bytes(),
                z.format(self.z).as_bytes(),
            ],
        )
    }
}

impl Lined for Element {
    ghost as_record = { record_of.Element };

    fn put(&self, out: &mut Vec<u8>, model: &Model) -> Result<(), NoMemory> {
        let name = self.name.bytes();
        let from = node_name(model, self.from);
        let to = node_name(model, self.to);
        let section = section_name(model, self.section);
        match self.shape {
            Shape::Straight => push_line(out, &[b"straight", name, from, to, section]),
            Shape::Bend {
                r,
                angle,
                px,
                py,
                pz,
            } => {
                let (mut a, mut b) = (Buffer::new(), Buffer::new());
                let (r, angle) = (a.format(r).as_bytes(), b.format(angle).as_bytes());
                let (mut x, mut y) = (Buffer::new(), Buffer::new());
                let (px, py) = (x.format(px).as_bytes(), y.format(py).as_bytes());
                let mut z = Buffer::new();
                let pz = z.format(pz).as_bytes();
                push_line(
                    out,
                    &[b"bend", name, from, to, section, r, angle, px, py, pz],
                )
            }
        }
    }
}

impl Lined for Tee {
    ghost as_record = { record_of.Tee };

    fn put(&self, out: &mut Vec<u8>, model: &Model) -> Result<(), NoMemory> {
        let node = node_name(model, self.node);
        let branch = element_name(model, self.branch);
        let header = section_name(model, self.header);
        let mut buffer = Buffer::new();
        let (kind, value) = connection(&mut buffer, self.kind);
        push_line(out, &[b"tee", node, branch, header, kind, value])
    }
}

// How a tee is made: the word of its kind, and its number.
fn connection(buffer: &mut Buffer, kind: TeeKind) -> (&[u8], &[u8])
    ensures { row_of.connection_words kind ≡ result.0.now ∷ result.1.now ∷ [] }
{
    match kind {
        TeeKind::Unreinforced => (b"unreinforced", b"0"),
        TeeKind::Pad(thickness) => (b"pad", buffer.format(thickness).as_bytes()),
        TeeKind::Coefficient(c) => (b"coefficient", buffer.format(c).as_bytes()),
    }
}

impl Lined for Restraint {
    ghost as_record = { record_of.Restraint };

    fn put(&self, out: &mut Vec<u8>, model: &Model) -> Result<(), NoMemory> {
        let name = self.name.bytes();
        let node = node_name(model, self.node);
        match self.kind {
            RestraintKind::Anchor { kt, kr } => put_anchor(out, name, node, kt, kr),
            RestraintKind::Linear { dx, dy, dz, k } => {
                put_along(out, b"linear", name, node, dx, dy, dz, k)
            }
            RestraintKind::Twist { dx, dy, dz, k } => {
                put_along(out, b"twist", name, node, dx, dy, dz, k)
            }
            RestraintKind::Oneway { dx, dy, dz, gap, k } => put_stop(
                out, b"oneway", name, node, dx, dy, dz, gap, k,
            ),
            RestraintKind::Gap { dx, dy, dz, gap, k } => put_stop(
                out, b"gap", name, node, dx, dy, dz, gap, k,
            ),
            RestraintKind::Hanger { rate, load } => put_hanger(out, name, node, rate, load),
        }
    }
}

fn put_anchor(
    out: &mut Vec<u8>,
    name: &[u8],
    node: &[u8],
    kt: Option<i64>,
    kr: Option<i64>,
) -> Result<(), NoMemory>
    ensures { OnOk result (out.new.items ≡ out.old.items ++ line (codes "anchor" ∷ name.now ∷ node.now ∷ row_of.number_word kt ∷ row_of.number_word kr ∷ [])) }
{
    let (mut first, mut second) = (Buffer::new(), Buffer::new());
    let kt = or_default(&mut first, kt);
    let kr = or_default(&mut second, kr);
    push_line(out, &[b"anchor", name, node, kt, kr])
}

// A restraint along or about a direction.
fn put_along<'a>(
    out: &mut Vec<u8>,
    kind: &'a [u8],
    name: &'a [u8],
    node: &'a [u8],
    dx: i64,
    dy: i64,
    dz: i64,
    k: Option<i64>,
) -> Result<(), NoMemory>
    ensures { OnOk result (out.new.items ≡ out.old.items ++ line (kind.now ∷ name.now ∷ node.now ∷ signed_decimal dx ∷ signed_decimal dy ∷ signed_decimal dz ∷ row_of.number_word k ∷ [])) }
{
    let (mut x, mut y) = (Buffer::new(), Buffer::new());
    let (mut z, mut last) = (Buffer::new(), Buffer::new());
    let dx = x.format(dx).as_bytes();
    let dy = y.format(dy).as_bytes();
    let dz = z.format(dz).as_bytes();
    let k = or_default(&mut last, k);
    push_line(out, &[kind, name, node, dx, dy, dz, k])
}

// A restraint along a direction, with a gap.
fn put_stop<'a>(
    out: &mut Vec<u8>,
    kind: &'a [u8],
    name: &'a [u8],
    node: &'a [u8],
    dx: i64,
    dy: i64,
    dz: i64,
    gap: i64,
    k: Option<i64>,
) -> Result<(), NoMemory>
    ensures { OnOk result (out.new.items ≡ out.old.items ++ line (kind.now ∷ name.now ∷ node.now ∷ signed_decimal dx ∷ signed_decimal dy ∷ signed_decimal dz ∷ signed_decimal gap ∷ row_of.number_word k ∷ [])) }
{
    let (mut x, mut y) = (Buffer::new(), Buffer::new());
    let (mut z, mut between) = (Buffer::new(), Buffer::new());
    let mut last = Buffer::new();
    let dx = x.format(dx).as_bytes();
    let dy = y.format(dy).as_bytes();
    let dz = z.format(dz).as_bytes();
    let gap = between.format(gap).as_bytes();
    let k = or_default(&mut last, k);
    push_line(out, &[kind, name, node, dx, dy, dz, gap, k])
}

fn put_hanger(
    out: &mut Vec<u8>,
    name: &[u8],
    node: &[u8],
    rate: i64,
    load: i64,
) -> Result<(), NoMemory>
    ensures { OnOk result (out.new.items ≡ out.old.items ++ line (codes "hanger" ∷ name.now ∷ node.now ∷ signed_decimal rate ∷ signed_decimal load ∷ [])) }
{
    let (mut first, mut second) = (Buffer::new(), Buffer::new());
    let rate = first.format(rate).as_bytes();
    let load = second.format(load).as_bytes();
    push_line(out, &[b"hanger", name, node, rate, load])
}

// A number, or `-` for the default.
fn or_default(buffer: &mut Buffer, n: Option<i64>) -> &[u8]
    ensures { result.now ≡ row_of.number_word n }
{
    match n {
        Some(n) => buffer.format(n).as_bytes(),
        None => b"-",
    }
}

impl Lined for Case {
    ghost as_record = { record_of.Case };

    fn put(&self, out: &mut Vec<u8>, _model: &Model) -> Result<(), NoMemory> {
        let (mut gx, mut gy) = (Buffer::new(), Buffer::new());
        let (mut gz, mut dt) = (Buffer::new(), Buffer::new());
        let mut p = Buffer::new();
        let (gx, gy) = (gx.format(self.gx).as_bytes(), gy.format(self.gy).as_bytes());
        let (gz, dt) = (gz.format(self.gz).as_bytes(), dt.format(self.dt).as_bytes());
        let p = p.format(self.p).as_bytes();
        let name = self.name.bytes();
        let hangers = hangers(self);
        push_line(out, &[b"case", name, gx, gy, gz, hangers, dt, p])
    }
}

// 1 where hanger loads act, and else 0.
fn hangers(case: &Case) -> &[u8]
    ensures { result.now ≡ row_of.flag_word case.now.hangers }
{
    if case.hangers { b"1" } else { b"0" }
}

impl Lined for Temp {
    ghost as_record = { record_of.Temp };

    fn put(&self, out: &mut Vec<u8>, model: &Model) -> Result<(), NoMemory> {
        let case = case_name(model, self.case);
        let section = section_name(model, self.section);
        let mut dt = Buffer::new();
        push_line(
            out,
            &[b"temp", case, section, dt.format(self.dt).as_bytes()],
        )
    }
}

impl Lined for Pressure {
    ghost as_record = { record_of.Pressure };

    fn put(&self, out: &mut Vec<u8>, model: &Model) -> Result<(), NoMemory> {
        let case = case_name(model, self.case);
        let section = section_name(model, self.section);
        let mut p = Buffer::new();
        push_line(
            out,
            &[b"pressure", case, section, p.format(self.p).as_bytes()],
        )
    }
}

impl Lined for Force {
    ghost as_record = { record_of.Force };

    fn put(&self, out: &mut Vec<u8>, model: &Model) -> Result<(), NoMemory> {
        let (mut fx, mut fy) = (Buffer::new(), Buffer::new());
        let (mut fz, mut mx) = (Buffer::new(), Buffer::new());
        let (mut my, mut mz) = (Buffer::new(), Buffer::new());
        push_line(
            out,
            &[
                b"force",
                case_name(model, self.case),
                node_name(model, self.node),
                fx.format(self.fx).as_bytes(),
                fy.format(self.fy).as_bytes(),
                fz.format(self.fz).as_bytes(),
                mx.format(self.mx).as_bytes(),
                my.format(self.my).as_bytes(),
                mz.format(self.mz).as_bytes(),
            ],
        )
    }
}

impl Lined for Move {
    ghost as_record = { record_of.Move };

    fn put(&self, out: &mut Vec<u8>, model: &Model) -> Result<(), NoMemory> {
        let (mut x, mut y) = (Buffer::new(), Buffer::new());
        let mut z = Buffer::new();
        push_line(
            out,
            &[
                b"move",
                case_name(model, self.case),
                restraint_name(model, self.anchor),
                x.format(self.x).as_bytes(),
                y.format(self.y).as_bytes(),
                z.format(self.z).as_bytes(),
            ],
        )
    }
}

impl Lined for Check {
    ghost as_record = { record_of.Check };

    fn put(&self, out: &mut Vec<u8>, model: &Model) -> Result<(), NoMemory> {
        let name = self.name.bytes();
        match self.kind {
            CheckKind::Sustained { case, sh } => {
                let mut buffer = Buffer::new();
                let case = case_name(model, case);
                let sh = buffer.format(sh).as_bytes();
                push_line(out, &[b"check", name, b"sustained", case, sh])
            }
            CheckKind::Occasional { case, sh, percent } => {
                put_occasional(out, name, case_name(model, case), sh, percent)
            }
            CheckKind::Expansion {
                case1,
                case2,
                sc,
                sh,
                cycles,
                fm,
                sus,
            } => {
                let (first, second) = (case_name(model, case1), case_name(model, case2));
                let sus = check_word(model, sus);
                put_expansion(out, name, first, second, sc, sh, cycles, fm, sus)
            }
        }
    }
}

fn put_occasional(
    out: &mut Vec<u8>,
    name: &[u8],
    case: &[u8],
    sh: i64,
    percent: Option<i64>,
) -> Result<(), NoMemory>
    ensures { OnOk result (out.new.items ≡ out.old.items ++ line (codes "check" ∷ name.now ∷ codes "occasional" ∷ case.now ∷ signed_decimal sh ∷ row_of.number_word percent ∷ [])) }
{
    let (mut first, mut second) = (Buffer::new(), Buffer::new());
    let sh = first.format(sh).as_bytes();
    let percent = or_default(&mut second, percent);
    push_line(out, &[b"check", name, b"occasional", case, sh, percent])
}

// An expansion check between two cases.
fn put_expansion<'a>(
    out: &mut Vec<u8>,
    name: &'a [u8],
    case1: &'a [u8],
    case2: &'a [u8],
    sc: i64,
    sh: i64,
    cycles: i64,
    fm: i64,
    sus: &'a [u8],
) -> Result<(), NoMemory>
    ensures { OnOk result (out.new.items ≡ out.old.items ++ line (codes "check" ∷ name.now ∷ codes "expansion" ∷ case1.now ∷ case2.now ∷ signed_decimal sc ∷ signed_decimal sh ∷ signed_decimal cycles ∷ signed_decimal fm ∷ sus.now ∷ [])) }
{
    let (mut cold, mut hot) = (Buffer::new(), Buffer::new());
    let (mut count, mut factor) = (Buffer::new(), Buffer::new());
    let sc = cold.format(sc).as_bytes();
    let sh = hot.format(sh).as_bytes();
    let cycles = count.format(cycles).as_bytes();
    let fm = factor.format(fm).as_bytes();
    push_line(
        out,
        &[
            b"check",
            name,
            b"expansion",
            case1,
            case2,
            sc,
            sh,
            cycles,
            fm,
            sus,
        ],
    )
}

// The name of a check, or `-` where none is named.
fn check_word(model: &Model, named: Option<CheckId>) -> &[u8]
    ensures { result.now ≡ row_of.check_word model.now named }
{
    match named {
        Some(check) => check_name(model, check),
        None => b"-",
    }
}

// The name of a material, or nothing where there is none of that number.
fn material_name(model: &Model, material: MaterialId) -> &[u8]
    ensures { result.now ≡ row_of.name_of model.now space_of.Material material.0 }
{
    match model.materials().get(material.0 as usize) {
        Some(r) => r.name.bytes(),
        None => b"",
    }
}

// The name of a section, or nothing where there is none of that number.
fn section_name(model: &Model, section: SectionId) -> &[u8]
    ensures { result.now ≡ row_of.name_of model.now space_of.Section section.0 }
{
    match model.sections().get(section.0 as usize) {
        Some(r) => r.name.bytes(),
        None => b"",
    }
}

// The name of a node, or nothing where there is none of that number.
fn node_name(model: &Model, node: NodeId) -> &[u8]
    ensures { result.now ≡ row_of.name_of model.now space_of.Node node.0 }
{
    match model.nodes().get(node.0 as usize) {
        Some(r) => r.name.bytes(),
        None => b"",
    }
}

// The name of an element, or nothing where there is none of that number.
fn element_name(model: &Model, element: ElementId) -> &[u8]
    ensures { result.now ≡ row_of.name_of model.now space_of.Element element.0 }
{
    match model.elements().get(element.0 as usize) {
        Some(r) => r.name.bytes(),
        None => b"",
    }
}

// The name of a restraint, or nothing where there is none of that number.
fn restraint_name(model: &Model, restraint: RestraintId) -> &[u8]
    ensures { result.now ≡ row_of.name_of model.now space_of.Restraint restraint.0 }
{
    match model.restraints().get(restraint.0 as usize) {
        Some(r) => r.name.bytes(),
        None => b"",
    }
}

// The name of a case, or nothing where there is none of that number.
fn case_name(model: &Model, case: CaseId) -> &[u8]
    ensures { result.now ≡ row_of.name_of model.now space_of.Case case.0 }
{
    match model.cases().get(case.0 as usize) {
        Some(r) => r.name.bytes(),
        None => b"",
    }
}

// The name of a check, or nothing where there is none of that number.
fn check_name(model: &Model, check: CheckId) -> &[u8]
    ensures { result.now ≡ row_of.name_of model.now space_of.Check check.0 }
{
    match model.checks().get(check.0 as usize) {
        Some(r) => r.name.bytes(),
        None => b"",
    }
}
