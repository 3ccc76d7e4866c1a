//! Generated models: lines of pipe of any length, to measure and to test with.
#![tactic(auto)]

ghost use Rattle.std.specs.Prelude.{◌≡◌, ◌≤◌, ◌+◌, ◌*◌, IfOk};
ghost use Rattle.model_gen.specs.GeneratedModel.{GeneratedHasTree, GeneratedIsAccepted};
ghost use Rattle.model_gen.specs.Text.{generated};

mod rows;

use crate::rows::{Row, push_rows};
use elim_order::orders_exist;
use elim_tree::trees_exist;
use model_text::canonical_reads_back;
use model_types::NoMemory;
use std::alloc::Global;
use text_words::push_line;

/// The text of a line of pipe of `n` expansion loops, one behind the other along x: 4n + 1 nodes and 4n straights of 3 m, n + 1
/// anchors, n one-way supports that hold the loops from below, and the case of its weight.
#[tactic(auto, unfolding(crate::specs::Text::generated))]
pub fn generate(alloc: Global, n: u32) -> Result<Vec<u8>, NoMemory>
    requires some { 1 ≤ n }
    requires few { n ≤ 400 }
    ensures { IfOk result (λ text. text.items ≡ generated n) }
{
    let mut out = Vec::new(alloc);
    push_line(&mut out, &[b"pipeflex", b"1"])?;
    push_line(
        &mut out,
        &[b"material", b"m", b"200000", b"300", b"12000", b"7850"],
    )?;
    push_line(
        &mut out,
        &[b"section", b"s", b"m", b"168300", b"7110", b"0", b"0"],
    )?;
    push_rows(&mut out, Row::Node, 4 * n + 1)?;
    push_rows(&mut out, Row::Straight, 4 * n)?;
    push_rows(&mut out, Row::Anchor, n + 1)?;
    push_rows(&mut out, Row::Support, n)?;
    push_line(
        &mut out,
        &[b"case", b"w", b"0", b"0", b"-1000", b"0", b"0", b"0"],
    )?;
    Ok(out)
}

/// The law of generated models: each text is accepted, and read as the model of the same loops.
pub fn generated_is_accepted()
    ensures { GeneratedIsAccepted }
{
    canonical_reads_back();
}

/// The law that each generated model has an assembly tree. As a node of its line is eliminated it has two neighbours left at most,
/// one to each side, so that no front is broad and the tree is small.
pub fn generated_has_tree()
    ensures { GeneratedHasTree }
{
    orders_exist();
    trees_exist();
}
