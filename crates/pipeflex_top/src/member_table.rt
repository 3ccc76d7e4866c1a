//! The member table of a model.

ghost use Rattle.std.specs.Prelude.{◌≡◌, ◌≤◌, ◌++◌, length, All, OnErr, OnOk, IfOk};
ghost use Rattle.std.specs.Io.{StartsWith};
ghost use Rattle.std.specs.List.{flat_map};
ghost use Rattle.model_types.specs.Rules.{Keeps};
ghost use Rattle.model_types.specs.declared.records.Record.TheVariants as record_of;
ghost use Rattle.structure.specs.Elements.{section_of};
ghost use Rattle.pipeflex_top.specs.Enclosure.{PrintsElement, PrintsEnclosures, PrintsTee, ShapeIsTold};
ghost use Rattle.pipeflex_top.specs.MemberTable.{kappa_words, kappa_lines, element_text, shape_lines, table_of, tee_text};
ghost use Rattle.text_words.specs.Fields.{line};

use flex_interval::{Iv, Wide};
use itoa::Buffer;
use member_set::Member;
use model_types::{Element, Model, NoMemory, Shape, Tee};
use report::{push_factors, push_tee_factors};
use std::alloc::Global;
use structure::element_members;
use text_words::push_line;

/// The member table: for each element in order the intervals of its members' stiffnesses, in 2^-20 N/m, and before them the factors of
/// a bend, in millionths; then for each tee in order its factors, in millionths.
pub fn member_table(alloc: Global, model: &Model) -> Result<Vec<u8>, NoMemory>
    ensures table { IfOk result (λ bytes. bytes.items ≡ table_of model.now) }
    ensures encloses { OnOk result (PrintsEnclosures model.now) }
{
    let mut out = Vec::new(alloc);
    push_line(&mut out, &[b"pipeflex", b"members", b"1"])?;
    push_elements(&mut out, model)?;
    push_tees(&mut out, model)?;
    push_line(&mut out, &[b"end"])?;
    Ok(out)
}

#[tactic(auto, using(std::proofs::Transfers::starts_with_of_append, std::proofs::Transfers::starts_with_trans))]
fn push_elements(out: &mut Vec<u8>, model: &Model) -> Result<(), NoMemory>
    ensures bytes { OnOk result (out.new.items ≡ out.old.items ++ flat_map (element_text model.now) model.now.elements) }
    ensures encloses { OnOk result (All (PrintsElement model.now) model.now.elements) }
    ensures kept { OnErr result (StartsWith out.new.items out.old.items) }
{
    let elements = model.elements();
    for element in elements {
        push_element(out, model, element)?;
    }
    Ok(())
}

#[tactic(auto, using(std::proofs::Transfers::starts_with_of_append, std::proofs::Transfers::starts_with_trans))]
fn push_element(out: &mut Vec<u8>, model: &Model, element: &Element) -> Result<(), NoMemory>
    requires { Keeps model.now (record_of.Element element.now) }
    ensures bytes { OnOk result (out.new.items ≡ out.old.items ++ element_text model.now element.now) }
    ensures told { OnOk result (PrintsElement model.now element.now) }
    ensures kept { OnErr result (StartsWith out.new.items out.old.items) }
{
    match element_members(model, element) {
        Ok(members) => {
            push_shape(out, model, element)?;
            push_kappas(out, members.as_slice())?;
        }
        Err(Wide) => push_line(out, &[b"element", element.name.bytes(), b"wide"])?,
    }
    Ok(())
}

// Writes the name of an element that has members, its shape and their number, and the factors of a bend.
#[tactic(auto, using(std::proofs::Transfers::starts_with_of_append, std::proofs::Transfers::starts_with_trans))]
fn push_shape(out: &mut Vec<u8>, model: &Model, element: &Element) -> Result<(), NoMemory>
    requires { Keeps model.now (record_of.Element element.now) }
    ensures bytes { OnOk result (out.new.items ≡ out.old.items ++ flat_map line (shape_lines element.now.name (section_of model.now element.now) element.now.shape)) }
    ensures told { OnOk result (ShapeIsTold (section_of model.now element.now) element.now.shape) }
    ensures kept { OnErr result (StartsWith out.new.items out.old.items) }
{
    let name = element.name.bytes();
    match element.shape {
        Shape::Straight => push_line(out, &[b"element", name, b"straight", b"8"])?,
        Shape::Bend { r, .. } => {
            push_line(out, &[b"element", name, b"bend", b"6"])?;
            push_factors(out, model.section(element.section), r)?;
        }
    }
    Ok(())
}

#[tactic(auto, using(std::proofs::Transfers::starts_with_of_append, std::proofs::Transfers::starts_with_trans))]
fn push_kappas(out: &mut Vec<u8>, members: &[Member]) -> Result<(), NoMemory>
    requires { length members.now ≤ 8 }
    ensures bytes { OnOk result (out.new.items ≡ out.old.items ++ flat_map line (kappa_lines 1 members.now)) }
    ensures kept { OnErr result (StartsWith out.new.items out.old.items) }
{
    let mut number = 1;
    for member in members {
        push_kappa(out, number, member.kappa)?;
        number += 1;
    }
    Ok(())
}

fn push_kappa(out: &mut Vec<u8>, j: u8, kappa: Iv) -> Result<(), NoMemory>
    ensures bytes { OnOk result (out.new.items ≡ out.old.items ++ line (kappa_words j kappa)) }
    ensures kept { OnErr result (StartsWith out.new.items out.old.items) }
{
    let (mut number, mut lo, mut hi) = (Buffer::new(), Buffer::new(), Buffer::new());
    let number = number.format(j).as_bytes();
    let lo = lo.format(kappa.lo).as_bytes();
    let hi = hi.format(kappa.hi).as_bytes();
    push_line(out, &[b"kappa", number, lo, hi])
}

#[tactic(auto, using(std::proofs::Transfers::starts_with_of_append, std::proofs::Transfers::starts_with_trans))]
fn push_tees(out: &mut Vec<u8>, model: &Model) -> Result<(), NoMemory>
    ensures bytes { OnOk result (out.new.items ≡ out.old.items ++ flat_map (tee_text model.now) model.now.tees) }
    ensures told { OnOk result (All (PrintsTee model.now) model.now.tees) }
    ensures kept { OnErr result (StartsWith out.new.items out.old.items) }
{
    let tees = model.tees();
    for tee in tees {
        push_tee(out, model, tee)?;
    }
    Ok(())
}

fn push_tee(out: &mut Vec<u8>, model: &Model, tee: &Tee) -> Result<(), NoMemory>
    requires { Keeps model.now (record_of.Tee tee.now) }
    ensures bytes { OnOk result (out.new.items ≡ out.old.items ++ tee_text model.now tee.now) }
    ensures told { PrintsTee model.now tee.now }
    ensures kept { OnErr result (StartsWith out.new.items out.old.items) }
{
    let node = model.node(tee.node);
    let header = model.section(tee.header);
    push_tee_factors(out, node.name.bytes(), header, tee.kind)
}
