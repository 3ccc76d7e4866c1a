//! Sources and sinks of bytes.
ghost use Rattle.std.specs.Prelude.{◌≡◌, ◌<◌, ◌≤◌, ℕ, List, Option, IfOk, IsOk, OnErr, OnOk, length, take};
ghost use Rattle.std.specs.Io.KnownBytes.{Appends, Consumes, Keeps};
ghost use Rattle.flex_io.specs.Fault.{Rose};
ghost use Rattle.flex_io.specs.Source.{EndsAtZero};
ghost use Rattle.flex_io.specs.Sink.{HasRoom, room_after};

/// A read or a write failed. The stream that it failed on has counted the fault.
#[derive(Drop)]
pub struct Failed;

/// Where bytes come from.
pub trait Source {
    /// The bytes that reads will still give, where they are told.
    ghost left: { Self → Option (List ℕ) };

    /// How many reads have failed. The count stands at the last value of a `u64`.
    ghost faults: { Self → ℕ };

    /// Takes the next bytes into the front of `buf`, and answers how many: 0 is the end of input.
    fn read(&mut self, buf: &mut [u8]) -> Result<usize, Failed>
        requires { 0 < length buf.old }
        ensures bound { IfOk result (λ n. n ≤ length buf.new) }
        ensures taken { IfOk result (λ n.
            Consumes (left self.old) (left self.new) (take n buf.new)) }
        ensures end { IfOk result (EndsAtZero (left self.old)) }

        // A read that gives counts no fault. One that fails is counted, and takes nothing.
        ensures steady { OnOk result (faults self.new ≡ faults self.old) }
        ensures failed { OnErr result (Rose (faults self.old) (faults self.new)) }
        ensures kept { OnErr result (Keeps (left self.old) (left self.new)) }
        ensures counted { faults self.old ≤ faults self.new };
}

/// Where bytes go.
pub trait Sink {
    /// The bytes that it holds, where they are told.
    ghost held: { Self → Option (List ℕ) };

    /// How many writes have failed. The count stands at the last value of a `u64`.
    ghost faults: { Self → ℕ };

    /// How many bytes more it takes without a fault, where that is told.
    ghost room: { Self → Option ℕ };

    /// Appends the first bytes of `piece`, and answers how many.
    fn write(&mut self, piece: &[u8]) -> Result<usize, Failed>
        requires { 0 < length piece.now }
        ensures some { IfOk result (λ n. 0 < n) }
        ensures bound { IfOk result (λ n. n ≤ length piece.now) }
        ensures added { IfOk result (λ n.
            Appends (held self.old) (held self.new) (take n piece.now)) }

        // A write that adds counts no fault. One that fails is counted, and adds nothing.
        ensures steady { OnOk result (faults self.new ≡ faults self.old) }
        ensures failed { OnErr result (Rose (faults self.old) (faults self.new)) }
        ensures kept { OnErr result (Keeps (held self.old) (held self.new)) }
        ensures counted { faults self.old ≤ faults self.new }

        // What fits the told room is taken, and takes room of its length. A failed write takes none.
        ensures fits { HasRoom (room self.old) (length piece.now) → IsOk result }
        ensures room_left { IfOk result (λ n. room self.new ≡ room_after (room self.old) n) }
        ensures room_kept { OnErr result (room self.new ≡ room self.old) };
}
