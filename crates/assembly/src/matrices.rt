ghost use Rattle.std.specs.Prelude.{◌≡◌, ℕ, ◌<◌, IfOk, IfErr, map, List, pos, ◌≤ℤ◌};
ghost use Rattle.member_set.specs.declared.members.Law.{Law};
ghost use Rattle.member_set.specs.Members.{IsBuilt, row_count};
ghost use Rattle.member_set.specs.States.{is_included, under};
ghost use Rattle.member_set.specs.Realisation.{Stiffness, IsStiffnessOf, exact_entry, entry_unit};
ghost use Rattle.sym_blocks.specs.Matrix.{entry, IsSymmetricByBlocks};
ghost use Rattle.assembly.specs.Stiffness.{AreAssembled, NamesFirstWide, IsWithinRadius};

use crate::fault::AssembleFault;
use crate::filling::fill_row;
use crate::laws::assembled_hold;
use flex_interval::point;
use member_set::{Built, states_select_members};
use std::alloc::{AllocError, Global};
use sym_blocks::SymBlocks;

/// The middles and the radii of the stiffness matrix of the members that take part under given contact states, one for each
/// state number, in units of 2^-20 N/m: the linear members and the closed ones. An empty list of states stands for the linear
/// members alone.
pub fn assemble(
    alloc: Global,
    b: &Built,
    closed: &[bool],
) -> Result<(SymBlocks, SymBlocks), AssembleFault>
    requires built { IsBuilt b.now }
    ensures matrices { IfOk result (λ m. AreAssembled (under b.now closed.now) m.0 m.1) }
    ensures within { IfOk result (λ m. (laws : List Law) (s : Stiffness) → IsStiffnessOf b.now laws s →
        (i j : ℕ) → i < row_count b.now → j < row_count b.now →
        IsWithinRadius (entry_unit s.denominator) (exact_entry (is_included b.now closed.now) s i j) (entry m.0 i j) (entry m.1 i j)) }
    ensures radii { IfOk result (λ m. (i j : ℕ) → i < row_count b.now → j < row_count b.now → pos 0 ≤ℤ entry m.1 i j) }
    ensures kept { IfOk result (λ m. IsSymmetricByBlocks m.0 × IsSymmetricByBlocks m.1) }
    ensures fault { IfErr result (λ f. NamesFirstWide (under b.now closed.now) f) }
{
    states_select_members();
    assembled_hold();
    let nodes = b.at.as_slice().len() as u32;
    let pairs = node_pairs(alloc, b)?;
    let mut middles = SymBlocks::new(alloc, nodes, &pairs)?;
    let mut radii = SymBlocks::new(alloc, nodes, &pairs)?;
    let mut scaled = vec![in alloc; point(0); b.members.as_slice().len()]?;
    for row in 0..6 * nodes {
        if fill_row(b, closed, &mut scaled, &mut middles, &mut radii, row).is_err() {
            return Err(AssembleFault::Wide { row });
        }
    }
    // What every matrix keeps: it is symmetric, and 0 outside its pattern.
    let _middles_nodes = middles.pattern(0);
    let _radii_nodes = radii.pattern(0);
    Ok((middles, radii))
}

/// The two nodes of each member.
fn node_pairs(alloc: Global, b: &Built) -> Result<Vec<(u32, u32)>, AllocError>
    ensures { IfOk result (λ pairs. pairs.items ≡ map (λ m. (m.n1, m.n2)) b.now.members) }
{
    let mut pairs = Vec::with_capacity(alloc, b.members.as_slice().len())?;
    for m in b.members.as_slice() {
        pairs.push((m.n1, m.n2))?;
    }
    Ok(pairs)
}
