//! The summary of the report of a generated model.
ghost use Rattle.std.specs.Prelude.{◌≡◌, ◌≤◌, ◌++◌, IfOk, OnErr, OnOk};
ghost use Rattle.std.specs.Io.{StartsWith};
ghost use Rattle.text_words.specs.Fields.{line};
ghost use Rattle.pipeflex_top.specs.Run.{AreLoops};
ghost use Rattle.pipeflex_top.specs.Summary.{IsSummary, summary_words};

use crate::answers::Answer;
use crate::judge::answer;
use crate::written::{Written, ending};
use accepted_text::acceptance_is_determined;
use flex_io::Gate;
use itoa::Buffer;
use model_gen::{generate, generated_has_tree, generated_is_accepted};
use model_types::NoMemory;
use std::alloc::Global;
use std::thread::Threads;
use text_words::push_line;

/// The line that tells the counts of the report of a generated text of so many loops, and how the run ends that has written it.
pub fn summary<R: Threads + Sync, G: Gate>(
    rt: &R,
    alloc: Global,
    loops: u32,
    workers: u32,
    gate: &G,
) -> Result<Written, NoMemory>
    requires loops { AreLoops loops }
    requires some { 1 ≤ workers }
    requires few { workers ≤ 64 }
    ensures { IfOk result (λ written. IsSummary loops written.bytes.items written.status) }
{
    // The laws by which no generated text is refused.
    generated_is_accepted();
    generated_has_tree();
    acceptance_is_determined();
    let text = generate(alloc, loops)?;
    match answer(rt, alloc, &text, workers, gate)? {
        Answer::Report {
            nodes,
            certified,
            uncertified,
            ..
        } => {
            let bytes = summary_line(alloc, loops, nodes, certified, uncertified)?;
            Ok(Written {
                bytes,
                status: ending(uncertified),
            })
        }
        Answer::Refused { .. } => unreachable!(),
    }
}

// The line of these counts.
fn summary_line(
    alloc: Global,
    loops: u32,
    nodes: u32,
    certified: u32,
    uncertified: u32,
) -> Result<Vec<u8>, NoMemory>
    ensures { IfOk result (λ bytes. bytes.items ≡ line (summary_words loops nodes certified uncertified)) }
{
    let mut out = Vec::new(alloc);
    push_summary(&mut out, loops, nodes, certified, uncertified)?;
    Ok(out)
}

// Writes the line of these counts.
fn push_summary(
    out: &mut Vec<u8>,
    loops: u32,
    nodes: u32,
    certified: u32,
    uncertified: u32,
) -> Result<(), NoMemory>
    ensures written { OnOk result (out.new.items ≡ out.old.items ++ line (summary_words loops nodes certified uncertified)) }
    ensures kept { OnErr result (StartsWith out.new.items out.old.items) }
{
    let (mut first, mut second) = (Buffer::new(), Buffer::new());
    let (mut third, mut fourth) = (Buffer::new(), Buffer::new());
    let loops = first.format(loops).as_bytes();
    let nodes = second.format(nodes).as_bytes();
    let certified = third.format(certified).as_bytes();
    let uncertified = fourth.format(uncertified).as_bytes();
    push_line(
        out,
        &[
            b"summary",
            loops,
            b"nodes",
            nodes,
            b"certified",
            certified,
            b"uncertified",
            uncertified,
        ],
    )
}
