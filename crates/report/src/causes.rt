ghost use Rattle.std.specs.Prelude.{◌≡◌, ◌<◌, [], ◌∷◌, ◌++◌, length, OnErr, OnOk};
ghost use Rattle.std.specs.Io.{StartsWith};
ghost use Rattle.model_types.specs.Fits.{IsCauseIn};
ghost use Rattle.report.specs.Report.{cause_words, element_name, freedom_word, node_name, restraint_name, side_word};
ghost use Rattle.report.specs.Words.{spaced};

use crate::words::{push_word, push_words};
use itoa::Buffer;
use model_types::{Cause, ElementId, Model, NoMemory, NodeId, RestraintId};

/// Writes the words of a cause, each behind a space.
pub(crate) fn push_cause(out: &mut Vec<u8>, m: &Model, cause: &Cause) -> Result<(), NoMemory>
    requires { IsCauseIn m.now cause.now }
    ensures written { OnOk result (out.new.items ≡ out.old.items ++ spaced (cause_words m.now cause.now)) }
    ensures kept { OnErr result (StartsWith out.new.items out.old.items) }
{
    match *cause {
        Cause::WidthElement(element) => {
            let name = element_name(m, element);
            push_words(out, &[b"width", b"element", name])
        }
        Cause::WidthMatrix { node, freedom } => {
            push_words(out, &[b"width", b"matrix"])?;
            push_place(out, m, node, freedom)
        }
        Cause::Pivot { node, freedom } => {
            push_word(out, b"pivot")?;
            push_place(out, m, node, freedom)
        }
        Cause::WidthFactor(node) => {
            let name = node_name(m, node);
            push_words(out, &[b"width", b"factor", name])
        }
        Cause::Margin { node, freedom } => {
            push_word(out, b"margin")?;
            push_place(out, m, node, freedom)
        }
        Cause::WidthLoad { node, freedom } => {
            push_words(out, &[b"width", b"load"])?;
            push_place(out, m, node, freedom)
        }
        Cause::WidthSolve { turn } => {
            let mut digits = Buffer::new();
            let turn = digits.format(turn).as_bytes();
            push_words(out, &[b"width", b"solve", turn])
        }
        Cause::Turns => push_words(out, &[b"turns", b"200"]),
        Cause::WidthResidual => push_words(out, &[b"width", b"residual"]),
        Cause::State { restraint, minus } => {
            let name = restraint_name(m, restraint);
            push_words(out, &[b"state", name])?;
            push_word(out, side_word(minus))
        }
    }
}

/// Writes the names of a node and of a freedom.
fn push_place(out: &mut Vec<u8>, m: &Model, node: NodeId, freedom: u32) -> Result<(), NoMemory>
    requires { node.0 < length m.now.nodes }
    ensures written { OnOk result (out.new.items ≡ out.old.items ++ spaced (node_name m.now node.0 ∷ freedom_word freedom ∷ [])) }
    ensures kept { OnErr result (StartsWith out.new.items out.old.items) }
{
    push_word(out, node_name(m, node))?;
    push_word(out, freedom_word(freedom))
}

fn node_name(m: &Model, node: NodeId) -> &[u8]
    requires { node.0 < length m.now.nodes }
    ensures { result.now ≡ node_name m.now node.0 }
{
    m.node(node).name.bytes()
}

fn element_name(m: &Model, element: ElementId) -> &[u8]
    requires { element.0 < length m.now.elements }
    ensures { result.now ≡ element_name m.now element.0 }
{
    m.element(element).name.bytes()
}

fn restraint_name(m: &Model, restraint: RestraintId) -> &[u8]
    requires { restraint.0 < length m.now.restraints }
    ensures { result.now ≡ restraint_name m.now restraint.0 }
{
    m.restraint(restraint).name.bytes()
}

fn freedom_word(freedom: u32) -> &'static [u8]
    ensures { result.now ≡ freedom_word freedom }
{
    match freedom {
        0 => b"ux",
        1 => b"uy",
        2 => b"uz",
        3 => b"rx",
        4 => b"ry",
        _ => b"rz",
    }
}

fn side_word(minus: bool) -> &'static [u8]
    ensures { result.now ≡ side_word minus }
{
    if minus { b"minus" } else { b"plus" }
}
