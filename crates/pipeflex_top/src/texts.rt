//! The replies to a text.
ghost use Rattle.std.specs.Prelude.{ℕ, ◌≤◌, List};
ghost use Rattle.accepted_text.specs.Accepted.{IsRefusedBy};
ghost use Rattle.pipeflex_top.specs.declared.commands.Reading.TheVariants as reading_of;
ghost use Rattle.pipeflex_top.specs.declared.commands.Reading.{Reading};
ghost use Rattle.pipeflex_top.specs.Run.{HaveWorkers, IsAnswer, message_bytes};

use crate::answers::Answer;
use crate::commands::Reading;
use crate::judge::answer;
use crate::member_table::member_table;
use crate::refusal::refusal_line;
use crate::reply::{Message, Reply, done, line_only, output_only};
use crate::written::ending;
use accepted_text::{AcceptFault, accept};
use flex_io::{Gate, Status};
use model_text::echo;
use std::alloc::{AllocError, Global};
use std::thread::Threads;

/// The reply to a text of which this is to be made.
pub fn reply_to_text<R: Threads + Sync, G: Gate>(
    rt: &R,
    alloc: Global,
    reading: Reading,
    text: &[u8],
    gate: &G,
) -> Reply
    requires { HaveWorkers reading }
    ensures { IsAnswer reading text.now result.output.items (message_bytes result.message) result.status }
{
    match reading {
        Reading::Members => table_reply(alloc, text),
        Reading::Echo => echo_reply(alloc, text),
        Reading::Analyse { workers } => report_reply(rt, alloc, text, workers, gate),
    }
}

fn table_reply(alloc: Global, text: &[u8]) -> Reply
    ensures { IsAnswer reading_of.Members text.now result.output.items (message_bytes result.message) result.status }
{
    match accept(alloc, text) {
        Ok(accepted) => done(alloc, member_table(alloc, &accepted.model)),
        Err(AcceptFault::Refused { number, line }) => refusal_reply(alloc, number, line),
        Err(AcceptFault::NoMemory) => line_only(alloc, Status::NoMemory, b""),
    }
}

fn echo_reply(alloc: Global, text: &[u8]) -> Reply
    ensures { IsAnswer reading_of.Echo text.now result.output.items (message_bytes result.message) result.status }
{
    match accept(alloc, text) {
        Ok(accepted) => done(alloc, echo(alloc, &accepted.model)),
        Err(AcceptFault::Refused { number, line }) => refusal_reply(alloc, number, line),
        Err(AcceptFault::NoMemory) => line_only(alloc, Status::NoMemory, b""),
    }
}

fn report_reply<R: Threads + Sync, G: Gate>(
    rt: &R,
    alloc: Global,
    text: &[u8],
    workers: u32,
    gate: &G,
) -> Reply
    requires some { 1 ≤ workers }
    requires few { workers ≤ 64 }
    ensures { IsAnswer (reading_of.Analyse workers) text.now result.output.items (message_bytes result.message) result.status }
{
    match answer(rt, alloc, text, workers, gate) {
        Ok(
            Answer::Report {
                bytes,
                uncertified,
                ..
            },
        ) => output_only(ending(uncertified), bytes),
        Ok(Answer::Refused { number, line }) => refusal_reply(alloc, number, line),
        Err(AllocError) => line_only(alloc, Status::NoMemory, b""),
    }
}

// The reply to a text that is refused by this number at this line.
fn refusal_reply(alloc: Global, number: u8, line: u32) -> Reply
    ensures { (reading : Reading) → (text : List ℕ) → IsRefusedBy text number line
        → IsAnswer reading text result.output.items (message_bytes result.message) result.status }
{
    match refusal_line(alloc, number, line) {
        Ok(message) => Reply {
            status: Status::Refused,
            output: Vec::new(alloc),
            message: Message::Built(message),
        },
        Err(AllocError) => line_only(alloc, Status::NoMemory, b""),
    }
}
