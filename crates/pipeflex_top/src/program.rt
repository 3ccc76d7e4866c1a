//! The top call.
ghost use Rattle.std.specs.Prelude.{◌≡◌, ◌≢◌, ◌⊎◌, ◌≤◌, List, ℕ, IfSome, IfOk};
ghost use Rattle.flex_io.specs.Delivery.{BreaksOff, TellsReadFault, WritesAnswer};
ghost use Rattle.flex_io.specs.Fault.{Rose};
ghost use Rattle.flex_io.specs.Sink.{WritesAll, WritesPart};
ghost use Rattle.model_text.specs.Grammar.{parsed};
ghost use Rattle.pipeflex_top.specs.declared.commands.Command.{Command};
ghost use Rattle.pipeflex_top.specs.declared.commands.Command.TheVariants.{Read};
ghost use Rattle.pipeflex_top.specs.declared.commands.Reading.TheVariants.{Members, Analyse};
ghost use Rattle.pipeflex_top.specs.Analysis.{IsReport};
ghost use Rattle.pipeflex_top.specs.Told.{IsReportText};
ghost use Rattle.pipeflex_top.specs.Enclosure.{PrintsEnclosures};
ghost use Rattle.pipeflex_top.specs.Run.{Answers, Asks, AsksToRead, Decides, HasForm, IsEnding};

use crate::requests::reply_to;
use accepted_text::acceptance_is_determined;
use flex_io::{Gate, Sink, Source, Status, deliver};
use std::alloc::Global;
use std::thread::Threads;

/// Runs the program on the words of its command line, without the program's name, and answers how
/// it ended. It returns for every input. On the model of the text that is read, `members` writes the member table,
/// `echo` the canonical text and `analyse` the report. `generate M` writes the text of a generated model and `summary M`
/// the counts of its report, and both read nothing.
///
/// The words are tested first. Then the source is read to its end, or to the byte past the limit of
/// a text, where the words ask for that. Then the text is judged and the output is built whole, before its first byte is
/// written. A text that is refused has one line on `err`, which tells the number, the line and the word.
pub fn run<R: Threads + Sync, S: Source, K: Sink, E: Sink, G: Gate>(
    rt: &R,
    alloc: Global,
    words: &[String],
    source: &mut S,
    out: &mut K,
    err: &mut E,
    gate: &G,
) -> Status
    // The answer to the words and the text was written whole, and the status is the answer's.
    ensures ended { result ≢ Status.WriteFault
        → WritesAnswer (Answers words.now (S.left source.old) (S.left source.new))
        (WritesAll K.held out.old out.new) (WritesAll E.held err.old err.new) result }

    // Or a sink failed that didn't tell room enough, and a first part of the answer was written. The
    // answer tells a read fault exactly where the source's count rose.
    ensures broke_off { result ≡ Status.WriteFault
        → BreaksOff (λ output message meant.
        Answers words.now (S.left source.old) (S.left source.new) output message meant
        × TellsReadFault meant (S.faults source.old) (S.faults source.new))
        (WritesPart K.held out.old out.new) (WritesPart E.held err.old err.new)
        (K.room out.old) (E.room err.old) }

    // Each exact stiffness of each straight lies in the pair that is printed for its member.
    ensures enclosed { result ≡ Status.Done → Asks words.now (Read Members)
        → IfSome (S.left source.old) (λ text. IfOk (parsed text) PrintsEnclosures) }

    // The report of a model is written whole; in each case that is printed certified, every exact
    // equilibrium of every realisation of the element enclosures lies in the printed bounds; and
    // where a check judges an end of an element, every exact stress of these equilibria lies in the
    // printed pair, the allowable in its own, and the printed verdict is true of them.
    ensures certified { (workers : ℕ) → Asks words.now (Read (Analyse workers))
        → (result ≡ Status.Done) ⊎ (result ≡ Status.Uncertified)
        → IfSome (S.left source.old) (λ text. IfOk (parsed text) (λ model. (output : List ℕ)
        × WritesAll K.held out.old out.new output
        × (IsReport model output result × IsReportText model output))) }

    // Words that ask for no text, and wrong words, leave the source unread.
    ensures unread { ¬ AsksToRead words.now → source.new ≡ source.old }

    // A fault has its status where its count rose, and nowhere else, but that a read fault whose
    // line meets a fault of a sink ends as a write fault. No count falls.
    ensures read_fault { result ≡ Status.ReadFault
        → Rose (S.faults source.old) (S.faults source.new) }
    ensures source_steady { result ≢ Status.ReadFault → result ≢ Status.WriteFault
        → S.faults source.new ≡ S.faults source.old }
    ensures write_fault { result ≡ Status.WriteFault
        → Rose (K.faults out.old) (K.faults out.new) ⊎ Rose (E.faults err.old) (E.faults err.new) }
    ensures out_steady { result ≢ Status.WriteFault → K.faults out.new ≡ K.faults out.old }
    ensures err_steady { result ≢ Status.WriteFault → E.faults err.new ≡ E.faults err.old }
    ensures source_counted { S.faults source.old ≤ S.faults source.new }
    ensures out_counted { K.faults out.old ≤ K.faults out.new }
    ensures err_counted { E.faults err.old ≤ E.faults err.new }

    // Where no count rose, the words and the text decide how it ends, but for want of memory.
    ensures wrong_words { ¬ HasForm words.now
        → ¬ Rose (K.faults out.old) (K.faults out.new)
        → ¬ Rose (E.faults err.old) (E.faults err.new)
        → result ≡ Status.Usage }
    ensures decided { HasForm words.now
        → ¬ Rose (S.faults source.old) (S.faults source.new)
        → ¬ Rose (K.faults out.old) (K.faults out.new)
        → ¬ Rose (E.faults err.old) (E.faults err.new)
        → IfSome (S.left source.old) (Decides words.now result) }
    ensures made { (command : Command) → Asks words.now command → ¬ AsksToRead words.now
        → ¬ Rose (K.faults out.old) (K.faults out.new)
        → ¬ Rose (E.faults err.old) (E.faults err.new)
        → IsEnding command result ⊎ (result ≡ Status.NoMemory) }
{
    // The law that no text is both accepted and refused.
    acceptance_is_determined();
    let reply = reply_to(rt, alloc, words, source, gate);
    deliver(out, err, &reply.output, reply.message.bytes(), reply.status)
}
