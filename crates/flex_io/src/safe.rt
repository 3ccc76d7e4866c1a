//! Streams in memory that tell all that they hold.
ghost use Rattle.std.specs.Prelude.{◌≡◌, ◌+◌, ◌-◌, ◌<◌, ◌≤◌, ◌++◌, ◌↔◌, ℕ, List, [], Some, IfOk, IsOk, OnErr, OnOk, IsErr, length, take, drop, min};
ghost use Rattle.std.specs.Io.KnownBytes.{Appends};
ghost use Rattle.flex_io.specs.Fault.{after_fault};
ghost use Rattle.flex_io.specs.Source.{EndsAtZero};

use super::NoMemory;
use super::streams::{Failed, Sink, Source};
use std::alloc::Global;
use std::marker::Model;

/// A source over bytes in memory that never fails. Clauses see it as the bytes that it has left.
#[derive(Drop)]
pub struct SafeSource {
    bytes: Vec<u8>,
    at: usize,
}

impl Model for SafeSource {
    ghost use Rattle.std.specs.Prelude.{ℕ, ◌≤◌, List, drop, vec_len};

    ghost Value = { List ℕ };

    ghost view = { λ s. drop s.at s.bytes.items };

    ghost invariant = { λ s. s.at ≤ vec_len s.bytes };
}

impl SafeSource {
    /// A source of these bytes.
    pub fn new(bytes: Vec<u8>) -> SafeSource
        ensures { result ≡ bytes.items }
    {
        SafeSource { bytes, at: 0 }
    }
}

impl Source for SafeSource {
    ghost left = { λ s. Some s };

    ghost faults = { λ _. 0 };

    fn read(&mut self, buf: &mut [u8]) -> Result<usize, Failed>
        requires { 0 < length buf.old }
        ensures bound { IfOk result (λ n. n ≤ length buf.new) }
        ensures taken { IfOk result (λ n. self.old ≡ take n buf.new ++ self.new) }
        ensures end { IfOk result (EndsAtZero (Some self.old)) }
        ensures sound { IsOk result }
    {
        let n = copy_front(&self.bytes[self.at..], buf);
        self.at += n;
        Ok(n)
    }
}

// Copies as much of `bytes` as `buf` has room for to its front, and answers how much.
fn copy_front(bytes: &[u8], buf: &mut [u8]) -> usize
    ensures count { result ≡ min (length bytes.now) (length buf.old) }
    ensures front { take result buf.new ≡ take result bytes.now }
{
    let n = bytes.len().min(buf.len());
    buf[..n].copy_from_slice(&bytes[..n]);
    n
}

/// A sink in memory with room for a number of bytes. A write fails, and is counted as a fault,
/// exactly where its piece is longer than the room left.
#[derive(Drop)]
pub struct SafeSink {
    bytes: Vec<u8>,
    size: usize,
    faults: u64,
}

impl Model for SafeSink {
    ghost use Rattle.std.specs.Prelude.{◌≡◌, ◌-◌, ◌≤◌, vec_len, vec_capacity};
    ghost use Rattle.flex_io.specs.Store.{Store};

    ghost Value = { Store };

    ghost view = { λ s. record {
      bytes = s.bytes.items;
      room = s.size - vec_len s.bytes;
      faults = s.faults;
    } };

    ghost invariant = { λ s. (vec_len s.bytes ≤ s.size) × (s.size ≤ vec_capacity s.bytes) };
}

impl SafeSink {
    /// An empty sink with room for `size` bytes.
    pub fn new(alloc: Global, size: usize) -> Result<SafeSink, NoMemory>
        ensures { IfOk result (λ s. s ≡ record { bytes = []; room = size; faults = 0 }) }
    {
        Ok(SafeSink {
            bytes: Vec::with_capacity(alloc, size)?,
            size,
            faults: 0,
        })
    }

    /// The bytes that it holds.
    pub fn bytes(&self) -> &[u8]
        ensures { result.now ≡ self.now.bytes }
    {
        &self.bytes
    }
}

impl Sink for SafeSink {
    ghost held = { λ s. Some s.bytes };

    ghost faults = { λ s. s.faults };

    ghost room = { λ s. Some s.room };

    fn write(&mut self, piece: &[u8]) -> Result<usize, Failed>
        requires { 0 < length piece.now }
        // The whole piece, or nothing where it is longer than the room.
        ensures whole { IfOk result (λ n. n ≡ length piece.now) }
        ensures full { IsErr result ↔ (self.old.room < length piece.now) }
        ensures added { IfOk result (λ n.
            Appends (Some self.old.bytes) (Some self.new.bytes) (take n piece.now)) }
        ensures steady { OnOk result (self.new.faults ≡ self.old.faults) }
        ensures room_left { IfOk result (λ n. self.new.room ≡ self.old.room - n) }
        // A failed write changes its count alone.
        ensures failed { OnErr result (self.new ≡ record self.old { faults = after_fault self.old.faults }) }
        ensures counted { self.old.faults ≤ self.new.faults }
    {
        if piece.len() > self.size - self.bytes.len() {
            self.faults = self.faults.saturating_add(1);
            return Err(Failed);
        }
        match self.bytes.extend_from_slice(piece) {
            Ok(()) => Ok(piece.len()),
            Err(_) => unreachable!(),
        }
    }
}
