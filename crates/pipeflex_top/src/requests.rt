//! The replies to the words.
ghost use Rattle.std.specs.Prelude.{◌≡◌, ◌≤◌, List, String};
ghost use Rattle.std.specs.Global.{Global};
ghost use Rattle.flex_io.specs.Delivery.{TellsReadFault};
ghost use Rattle.pipeflex_top.specs.declared.commands.Command.TheVariants as command_of_words;
ghost use Rattle.pipeflex_top.specs.Run.{AreLoops, Answers, Asks, AsksToRead, HaveWorkers, IsMadeAnswer, message_bytes};

use crate::commands::{Command, Reading, command_of};
use crate::reply::{Reply, done, line_only, output_only};
use crate::summary::summary;
use crate::texts::reply_to_text;
use flex_io::{Gate, Source, Status, TakeFault, take_all};
use model_gen::generate;
use std::alloc::{AllocError, Global};
use std::thread::Threads;

/// The most bytes that a text may have.
const LIMIT: usize = 4_194_304;

const USAGE: &[u8] =
    b"usage: pipeflex analyse [--workers N] | members | echo | generate M | summary M [--workers N]\n";

const READ_FAULT: &[u8] = b"read fault\n";

/// Makes the reply to the words, for which a text is read where they ask for something of one.
pub fn reply_to<R: Threads + Sync, S: Source, G: Gate>(
    rt: &R,
    alloc: Global,
    words: &[String],
    source: &mut S,
    gate: &G,
) -> Reply
    ensures answers { Answers words.now (S.left source.old) (S.left source.new)
        result.output.items (message_bytes result.message) result.status }
    ensures read_fault { TellsReadFault result.status (S.faults source.old) (S.faults source.new) }
    ensures counted { S.faults source.old ≤ S.faults source.new }
    ensures unread { ¬ AsksToRead words.now → source.new ≡ source.old }
{
    match command_of(words) {
        Some(Command::Read(reading)) => reply_to_source(rt, alloc, reading, source, gate),
        Some(Command::Generate { loops }) => text_reply(alloc, loops),
        Some(Command::Summary { loops, workers }) => {
            summary_reply(rt, alloc, loops, workers, gate)
        }
        None => line_only(alloc, Status::Usage, USAGE),
    }
}

// The reply to the text that is read.
fn reply_to_source<R: Threads + Sync, S: Source, G: Gate>(
    rt: &R,
    alloc: Global,
    reading: Reading,
    source: &mut S,
    gate: &G,
) -> Reply
    requires { HaveWorkers reading }
    ensures answers { (words : List (String Global)) → Asks words (command_of_words.Read reading)
        → Answers words (S.left source.old) (S.left source.new)
        result.output.items (message_bytes result.message) result.status }
    ensures read_fault { TellsReadFault result.status (S.faults source.old) (S.faults source.new) }
    ensures counted { S.faults source.old ≤ S.faults source.new }
{
    match take_all(alloc, source, LIMIT) {
        Ok(text) => reply_to_text(rt, alloc, reading, &text, gate),
        Err(TakeFault::Read) => line_only(alloc, Status::ReadFault, READ_FAULT),
        Err(TakeFault::NoMemory) => line_only(alloc, Status::NoMemory, b""),
    }
}

// The reply of a generated text.
fn text_reply(alloc: Global, loops: u32) -> Reply
    requires { AreLoops loops }
    ensures { IsMadeAnswer (command_of_words.Generate loops) result.output.items (message_bytes result.message) result.status }
{
    done(alloc, generate(alloc, loops))
}

// The reply of a summary.
fn summary_reply<R: Threads + Sync, G: Gate>(
    rt: &R,
    alloc: Global,
    loops: u32,
    workers: u32,
    gate: &G,
) -> Reply
    requires loops { AreLoops loops }
    requires some { 1 ≤ workers }
    requires few { workers ≤ 64 }
    ensures { IsMadeAnswer (command_of_words.Summary loops workers) result.output.items (message_bytes result.message) result.status }
{
    match summary(rt, alloc, loops, workers, gate) {
        Ok(written) => output_only(written.status, written.bytes),
        Err(AllocError) => line_only(alloc, Status::NoMemory, b""),
    }
}
