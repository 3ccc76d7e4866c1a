//! Whole texts from sources and to sinks.
ghost use Rattle.std.specs.Prelude.{◌≡◌, ◌+◌, ◌<◌, ◌≤◌, ℕ, List, [], IfOk, IfSome, IsErrOf, IsOk, OnErr, OnOk, length, take, drop, vec_len};
ghost use Rattle.std.specs.Io.KnownBytes.{Appends, Consumes, Keeps};
ghost use Rattle.flex_io.specs.Fault.{Rose};
ghost use Rattle.flex_io.specs.Source.{ConsumesAtMost, EndsAtZero};
ghost use Rattle.flex_io.specs.Sink.{HasRoom, SomePrefix, room_after};

use super::streams::{Failed, Sink, Source};
use std::alloc::Global;
use thiserror::Error;

/// Why a text was not taken.
#[derive(Debug, Drop, Error)]
pub enum TakeFault {
    /// A read failed.
    #[error("a read failed")]
    Read,
    /// Memory ran out.
    #[error("out of memory")]
    NoMemory,
}

// The first read's room in bytes. Later rooms double what is held.
const FIRST_ROOM: usize = 16384;

/// Takes all bytes to the end of input, or to the byte after the first `limit` where that comes
/// first. Memory is taken as the bytes come.
pub fn take_all<S: Source>(alloc: Global, s: &mut S, limit: usize) -> Result<Vec<u8>, TakeFault>
    ensures taken { IfOk result (λ bytes. Consumes (S.left s.old) (S.left s.new) bytes.items) }
    ensures whole { IfOk result (λ bytes.
        IfSome (S.left s.old) (λ left. bytes.items ≡ take (limit + 1) left)) }
    ensures bound { IfOk result (λ bytes. vec_len bytes ≤ limit + 1) }

    // Bytes that came before a fault are taken and lost.
    ensures lost { OnErr result (ConsumesAtMost (S.left s.old) (S.left s.new) (limit + 1)) }
    // A fault that was counted is told, and a fault is told only where it was counted.
    ensures read { IsErrOf result TakeFault.Read → Rose (S.faults s.old) (S.faults s.new) }
    ensures steady { ¬ IsErrOf result TakeFault.Read → S.faults s.new ≡ S.faults s.old }
    ensures counted { S.faults s.old ≤ S.faults s.new }
{
    let mut bytes = Vec::new(alloc);
    let mut filled = 0;
    while filled <= limit {
        make_room(&mut bytes, filled, limit)?;
        match read_at(s, &mut bytes, filled) {
            Ok(0) => break,
            Ok(n) => filled += n,
            Err(_) => return Err(TakeFault::Read),
        }
    }
    bytes.truncate(filled);
    Ok(bytes)
}

// Where all room is filled, makes more, but no more than for `limit` bytes and one.
fn make_room(bytes: &mut Vec<u8>, filled: usize, limit: usize) -> Result<(), TakeFault>
    requires filled { filled ≤ vec_len bytes.old }
    requires most { vec_len bytes.old ≤ limit + 1 }
    requires more { filled ≤ limit }
    ensures front { take filled bytes.new.items ≡ take filled bytes.old.items }
    ensures room { OnOk result (filled < vec_len bytes.new) }
    ensures fits { OnOk result (vec_len bytes.new ≤ limit + 1) }
    ensures err { OnErr result (result ≡ Err TakeFault.NoMemory) }
{
    if filled < bytes.len() {
        return Ok(());
    }
    let room = (limit - filled).saturating_add(1);
    let more = filled.max(FIRST_ROOM).min(room);
    if bytes.resize(filled + more, 0).is_err() {
        return Err(TakeFault::NoMemory);
    }
    Ok(())
}

// One read into the room from `at` on.
fn read_at<S: Source>(s: &mut S, buf: &mut [u8], at: usize) -> Result<usize, Failed>
    requires { at < length buf.old }
    ensures front { take at buf.new ≡ take at buf.old }
    ensures fits { IfOk result (λ n. at + n ≤ length buf.new) }
    ensures taken { IfOk result (λ n.
        Consumes (S.left s.old) (S.left s.new) (take n (drop at buf.new))) }
    ensures end { IfOk result (EndsAtZero (S.left s.old)) }
    ensures steady { OnOk result (S.faults s.new ≡ S.faults s.old) }
    ensures failed { OnErr result (Rose (S.faults s.old) (S.faults s.new)) }
    ensures kept { OnErr result (Keeps (S.left s.old) (S.left s.new)) }
    ensures counted { S.faults s.old ≤ S.faults s.new }
{
    s.read(&mut buf[at..])
}

/// Writes all bytes.
pub fn put_all<K: Sink>(k: &mut K, bytes: &[u8]) -> Result<(), Failed>
    ensures ok { OnOk result (Appends (K.held k.old) (K.held k.new) bytes.now) }

    // A first part is written before a fault, and takes the room of its length.
    ensures err { OnErr result (SomePrefix bytes.now (λ part. Appends (K.held k.old) (K.held k.new) part
        × (K.room k.new ≡ room_after (K.room k.old) (length part)))) }

    // A fault that was counted is told, and a fault is told only where it was counted.
    ensures steady { OnOk result (K.faults k.new ≡ K.faults k.old) }
    ensures failed { OnErr result (Rose (K.faults k.old) (K.faults k.new)) }
    ensures counted { K.faults k.old ≤ K.faults k.new }

    // What fits the told room is written.
    ensures fits { HasRoom (K.room k.old) (length bytes.now) → IsOk result }
    ensures room_left { OnOk result (K.room k.new ≡ room_after (K.room k.old) (length bytes.now)) }

    // Without a byte to write, the sink stays as it is.
    ensures nothing { bytes.now ≡ [] → k.new ≡ k.old }
{
    let mut rest = bytes;
    while !rest.is_empty() {
        let n = k.write(rest)?;
        rest = &rest[n..];
    }
    Ok(())
}
