//! The end of a run: its answer is written, or breaks off.
ghost use Rattle.std.specs.Prelude.{◌≡◌, ◌≢◌, ◌⊎◌, ◌≤◌, length};
ghost use Rattle.flex_io.specs.Fault.{Rose};
ghost use Rattle.flex_io.specs.Sink.{HasRoom, WritesAll, WritesPart};

use super::outcome::Status;
use super::streams::Sink;
use super::transfer::put_all;

/// Writes an answer, its output to `out` and then its message to `err`, and answers how the run ends: as is meant, or
/// WriteFault where a sink failed.
pub fn deliver<K: Sink, E: Sink>(
    out: &mut K,
    err: &mut E,
    output: &[u8],
    message: &[u8],
    meant: Status,
) -> Status
    requires { meant ≢ Status.WriteFault }

    // The answer was written whole, and the run ends as is meant.
    ensures ended { result ≢ Status.WriteFault → result ≡ meant }
    ensures whole { result ≢ Status.WriteFault
        → WritesAll K.held out.old out.new output.now × WritesAll E.held err.old err.new message.now }
    // Or a sink failed that didn't tell room enough, and a first part of the answer was written.
    ensures broke_off { result ≡ Status.WriteFault
        → WritesPart K.held out.old out.new output.now × WritesPart E.held err.old err.new message.now
        × ¬ (HasRoom (K.room out.old) (length output.now) × HasRoom (E.room err.old) (length message.now)) }

    // A fault of a sink is told where its count rose, and nowhere else. No count falls.
    ensures write_fault { result ≡ Status.WriteFault
        → Rose (K.faults out.old) (K.faults out.new) ⊎ Rose (E.faults err.old) (E.faults err.new) }
    ensures out_steady { result ≢ Status.WriteFault → K.faults out.new ≡ K.faults out.old }
    ensures err_steady { result ≢ Status.WriteFault → E.faults err.new ≡ E.faults err.old }
    ensures out_counted { K.faults out.old ≤ K.faults out.new }
    ensures err_counted { E.faults err.old ≤ E.faults err.new }
{
    if put_all(out, output).is_err() {
        return Status::WriteFault;
    }
    if put_all(err, message).is_err() {
        return Status::WriteFault;
    }
    meant
}
