ghost use Rattle.std.specs.Prelude.{◌≡◌, ◌*◌, ◌∷◌, ◌++◌, codes, map, length, All, OnErr, OnOk};
ghost use Rattle.std.specs.Io.{StartsWith};
ghost use Rattle.std.specs.List.{flat_map};
ghost use Rattle.model_types.specs.Fits.{AreModest, IsModest};
ghost use Rattle.report.specs.Report.{guess_lines, guess_word, node_lines, pair, restraint_lines, state_words};
ghost use Rattle.report.specs.Rows.{told_pairs};
ghost use Rattle.model_types.specs.MemberCounts.{restraints_member_count, restraints_state_count};
ghost use Rattle.report.specs.Rounding.{IsScale};
ghost use Rattle.report.specs.Words.{spaced};
ghost use Rattle.text_words.specs.Fields.{line};

use crate::rounding::{
    DISPLACEMENT_UNITS, LOAD_UNITS, MILLI, NANO, rounded, rounded_down, rounded_up,
};
use crate::words::{push_number, push_word};
use model_types::{Bounds, NoMemory, Node, Restraint, RestraintKind};

/// Freedoms of a node.
const FREEDOMS: usize = 6;

/// Writes a line for each node: `node`, its name and the bounds of its six displacements, of which `u` has six for each.
pub(crate) fn push_nodes(out: &mut Vec<u8>, nodes: &[Node], u: &[Bounds]) -> Result<(), NoMemory>
    requires one_each { length u.now ≡ 6 * length nodes.now }
    requires modest { AreModest u.now }
    ensures written { OnOk result (out.new.items ≡ out.old.items ++ flat_map line (node_lines nodes.now u.now)) }
    ensures kept { OnErr result (StartsWith out.new.items out.old.items) }
{
    let mut rest = u;
    for node in nodes {
        let (row, after) = rest.split_at(FREEDOMS);
        push_row(
            out,
            b"node",
            node.name.bytes(),
            &[],
            row,
            NANO,
            DISPLACEMENT_UNITS,
        )?;
        rest = after;
    }
    Ok(())
}

/// Writes a line for each restraint: `restraint`, its name and the bounds of its loads, behind their contact states where it has
/// some.
pub(crate) fn push_restraints(
    out: &mut Vec<u8>,
    restraints: &[Restraint],
    loads: &[Bounds],
    states: &[bool],
) -> Result<(), NoMemory>
    requires one_each { length loads.now ≡ restraints_member_count restraints.now }
    requires one_state_each { length states.now ≡ restraints_state_count restraints.now }
    requires modest { AreModest loads.now }
    ensures written { OnOk result (out.new.items ≡ out.old.items ++ flat_map line (restraint_lines restraints.now loads.now states.now)) }
    ensures kept { OnErr result (StartsWith out.new.items out.old.items) }
{
    let (mut rest, mut rest_of_states) = (loads, states);
    for restraint in restraints {
        let (own, others) = rest.split_at(restraint.kind.member_count());
        let (own_states, other_states) = rest_of_states.split_at(restraint.kind.state_count());
        push_row(
            out,
            b"restraint",
            restraint.name.bytes(),
            own_states,
            own,
            MILLI,
            LOAD_UNITS,
        )?;
        rest = others;
        rest_of_states = other_states;
    }
    Ok(())
}

/// Writes a line for each node: `guess`, its name and its six displacements, to the nearest.
pub(crate) fn push_guesses(out: &mut Vec<u8>, nodes: &[Node], u: &[i128]) -> Result<(), NoMemory>
    requires { All IsModest u.now }
    ensures written { OnOk result (out.new.items ≡ out.old.items ++ flat_map line (guess_lines nodes.now u.now)) }
    ensures kept { OnErr result (StartsWith out.new.items out.old.items) }
{
    let mut rest = u;
    for node in nodes {
        let count = FREEDOMS.min(rest.len());
        let (row, after) = rest.split_at(count);
        push_guess(out, node.name.bytes(), row)?;
        rest = after;
    }
    Ok(())
}

/// Writes the line of a node's displacements.
fn push_guess(out: &mut Vec<u8>, name: &[u8], u: &[i128]) -> Result<(), NoMemory>
    requires { All IsModest u.now }
    ensures written { OnOk result (out.new.items ≡ out.old.items ++ line (codes "guess" ∷ name.now ∷ map guess_word u.now)) }
    ensures kept { OnErr result (StartsWith out.new.items out.old.items) }
{
    out.extend_from_slice(b"guess")?;
    push_word(out, name)?;
    push_guess_words(out, u)?;
    out.push(b'\n')?;
    Ok(())
}

fn push_guess_words(out: &mut Vec<u8>, u: &[i128]) -> Result<(), NoMemory>
    requires { All IsModest u.now }
    ensures written { OnOk result (out.new.items ≡ out.old.items ++ spaced (map guess_word u.now)) }
    ensures kept { OnErr result (StartsWith out.new.items out.old.items) }
{
    for z in u {
        push_number(out, rounded(*z, NANO, DISPLACEMENT_UNITS))?;
    }
    Ok(())
}

/// Writes a line: its first word, a name, and each pair of bounds in a unit that is `m / n` of theirs, the first ones behind
/// states.
fn push_row(
    out: &mut Vec<u8>,
    first: &[u8],
    name: &[u8],
    states: &[bool],
    bounds: &[Bounds],
    n: i128,
    m: i128,
) -> Result<(), NoMemory>
    requires modest { AreModest bounds.now }
    requires scale { IsScale n m }
    ensures written { OnOk result (out.new.items ≡ out.old.items ++ line (first.now ∷ name.now ∷ told_pairs n m states.now bounds.now)) }
    ensures kept { OnErr result (StartsWith out.new.items out.old.items) }
{
    out.extend_from_slice(first)?;
    push_word(out, name)?;
    push_pairs(out, states, bounds, n, m)?;
    out.push(b'\n')?;
    Ok(())
}

fn push_pairs(
    out: &mut Vec<u8>,
    states: &[bool],
    bounds: &[Bounds],
    n: i128,
    m: i128,
) -> Result<(), NoMemory>
    requires modest { AreModest bounds.now }
    requires scale { IsScale n m }
    ensures written { OnOk result (out.new.items ≡ out.old.items ++ spaced (told_pairs n m states.now bounds.now)) }
    ensures kept { OnErr result (StartsWith out.new.items out.old.items) }
{
    for (f, pair) in bounds.iter().enumerate() {
        push_state(out, states.get(f).copied())?;
        push_pair(out, pair, n, m)?;
    }
    Ok(())
}

/// Writes a contact state, where there is one.
fn push_state(out: &mut Vec<u8>, closed: Option<bool>) -> Result<(), NoMemory>
    ensures written { OnOk result (out.new.items ≡ out.old.items ++ spaced (state_words closed)) }
    ensures kept { OnErr result (StartsWith out.new.items out.old.items) }
{
    match closed {
        Some(true) => push_word(out, b"closed"),
        Some(false) => push_word(out, b"open"),
        None => Ok(()),
    }
}

/// Writes bounds in a unit that is `m / n` of theirs, rounded outwards.
pub(crate) fn push_pair(
    out: &mut Vec<u8>,
    bounds: &Bounds,
    n: i128,
    m: i128,
) -> Result<(), NoMemory>
    requires lo { IsModest bounds.now.lo }
    requires hi { IsModest bounds.now.hi }
    requires scale { IsScale n m }
    ensures written { OnOk result (out.new.items ≡ out.old.items ++ spaced (pair n m bounds.now)) }
    ensures kept { OnErr result (StartsWith out.new.items out.old.items) }
{
    push_number(out, rounded_down(bounds.lo, n, m))?;
    push_number(out, rounded_up(bounds.hi, n, m))?;
    Ok(())
}
