//! The call through which each analysis goes.
ghost use Rattle.std.specs.Prelude.{◌≤◌, IfOk};
ghost use Rattle.pipeflex_top.specs.Analysis.{Answered};

use crate::analysis::analysis;
use crate::answers::Answer;
use accepted_text::{AcceptFault, accept};
use flex_io::Gate;
use model_types::NoMemory;
use std::alloc::{AllocError, Global};
use std::thread::Threads;

/// Analyses a text by so many workers: its report with its counts, or the number and line that refuse it, exactly by the
/// definition of accepted texts. All work is done by the caller as yet, whatever the number of workers.
pub fn answer<R: Threads + Sync, G: Gate>(
    rt: &R,
    alloc: Global,
    text: &[u8],
    workers: u32,
    gate: &G,
) -> Result<Answer, NoMemory>
    requires some { 1 ≤ workers }
    requires few { workers ≤ 64 }
    ensures { IfOk result (Answered text.now) }
{
    match accept(alloc, text) {
        Ok(accepted) => analysis(alloc, &accepted.model, &accepted.tree),
        Err(AcceptFault::Refused { number, line }) => Ok(Answer::Refused { number, line }),
        Err(AcceptFault::NoMemory) => Err(AllocError),
    }
}
