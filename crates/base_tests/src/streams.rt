ghost use Rattle.std.specs.Prelude.{◌≤◌, IfOk};

use flex_io::{
    Gate, Idle, SafeSink, SafeSource, Status, StdSink, StdSource, TakeFault, code, put_all,
    take_all,
};
use std::alloc::Global;
use std::io;
use std::io::{ErrorKind, Read, Write};
use std::test::Fail;

// What a scripted stream does at a call.
#[derive(Clone, Copy)]
enum Turn {
    Bytes(usize),
    Breaks(ErrorKind),
}

// Reads and writes by a script, and takes nothing more after it.
#[derive(Drop)]
struct Script {
    turns: [Turn; 4],
    at: usize,
}

impl Script {
    fn next(&mut self, most: usize) -> io::Result<usize>
        ensures { IfOk result (λ n. n ≤ most) }
    {
        if self.at >= 4 {
            return Ok(0);
        }
        let turn = self.turns[self.at];
        self.at += 1;
        match turn {
            Turn::Bytes(n) => Ok(n.min(most)),
            Turn::Breaks(kind) => Err(io::Error::from(kind)),
        }
    }
}

impl Read for Script {
    fn read(&mut self, buf: &mut [u8]) -> io::Result<usize> {
        let n = self.next(buf.len())?;
        buf[..n].fill(7);
        Ok(n)
    }
}

impl Write for Script {
    fn write(&mut self, buf: &[u8]) -> io::Result<usize> {
        self.next(buf.len())
    }

    fn flush(&mut self) -> io::Result<()> {
        Ok(())
    }
}

const INTERRUPTED: Turn = Turn::Breaks(ErrorKind::Interrupted);

const BROKEN: Turn = Turn::Breaks(ErrorKind::Other);

fn scripted(turns: [Turn; 4]) -> Script {
    Script { turns, at: 0 }
}

#[test]
fn takes_to_the_end_or_past_the_limit(rt: HostRuntime) -> Result<(), Fail> {
    for (len, limit, taken) in [
        (0, 0, 0),
        (5, 9, 5),
        (5, 5, 5),
        (5, 4, 5),
        (5, 3, 4),
        (5, 0, 1),
        (50_000, usize::MAX, 50_000),
        (50_000, 40_000, 40_001),
    ] {
        let mut source = SafeSource::new(vec![in rt.alloc(); 3; len]?);
        let bytes = take_all(rt.alloc(), &mut source, limit)?;
        let rest = take_all(rt.alloc(), &mut source, usize::MAX)?;
        let found = (bytes.len(), rest.len());
        assert!(rt; found == (taken, len - taken), "{len} bytes, limit {limit}");
    }
    Ok(())
}

#[test]
fn puts_while_there_is_room(rt: HostRuntime) -> Result<(), Fail> {
    let mut sink = SafeSink::new(rt.alloc(), 5)?;
    let rows: [(&[u8], bool); 4] = [(b"pip", true), (b"efl", false), (b"e!", true), (b"", true)];
    for (piece, is_put) in rows {
        assert!(rt; put_all(&mut sink, piece).is_ok() == is_put, "{piece:?}");
    }
    assert_eq!(rt; sink.bytes(), b"pipe!".as_slice());
    Ok(())
}

#[test]
fn reads_from_standard_readers(rt: HostRuntime) -> Result<(), Fail> {
    let mut source = StdSource::new(b"pipeflex 1\n".as_slice());
    let text = take_all(rt.alloc(), &mut source, 100)?;
    assert_eq!(rt; text.as_slice(), b"pipeflex 1\n".as_slice());

    // What a text has that is read to its end, and one that is read after it. `None` is a read fault.
    for (turns, first, second) in [
        (
            [INTERRUPTED, Turn::Bytes(3), Turn::Bytes(1), INTERRUPTED],
            Some(4),
            Some(0),
        ),
        (
            [INTERRUPTED, INTERRUPTED, Turn::Bytes(0), Turn::Bytes(2)],
            Some(0),
            Some(2),
        ),
        (
            [INTERRUPTED, BROKEN, Turn::Bytes(2), INTERRUPTED],
            None,
            Some(2),
        ),
        ([Turn::Bytes(3), BROKEN, Turn::Bytes(1), BROKEN], None, None),
    ] {
        let mut source = StdSource::new(scripted(turns));
        let found = (
            taken(rt.alloc(), &mut source),
            taken(rt.alloc(), &mut source),
        );
        assert!(rt; found == (first, second));
    }
    Ok(())
}

// How many bytes are taken to the end, or `None` at a read fault.
fn taken(alloc: Global, source: &mut StdSource<Script>) -> Option<usize> {
    match take_all(alloc, source, 100) {
        Ok(bytes) => Some(bytes.len()),
        Err(TakeFault::Read) => None,
        Err(TakeFault::NoMemory) => Some(usize::MAX),
    }
}

#[test]
fn writes_to_standard_writers(rt: HostRuntime) -> Result<(), Fail> {
    let mut bytes = b"end".to_vec(rt.alloc())?;
    let mut sink = StdSink::new(&mut bytes);
    let is_put = put_all(&mut sink, b" of\n").is_ok() && put_all(&mut sink, b"text\n").is_ok();
    assert!(rt; is_put);
    assert_eq!(rt; bytes.as_slice(), b"end of\ntext\n".as_slice());

    // Whether a piece of four bytes is put, and one that is put after it.
    for (turns, first, second) in [
        (
            [INTERRUPTED, Turn::Bytes(3), Turn::Bytes(1), INTERRUPTED],
            true,
            false,
        ),
        (
            [BROKEN, INTERRUPTED, Turn::Bytes(4), Turn::Bytes(4)],
            false,
            true,
        ),
        (
            [Turn::Bytes(3), BROKEN, Turn::Bytes(4), Turn::Bytes(4)],
            false,
            true,
        ),
        (
            [
                Turn::Bytes(0),
                Turn::Bytes(4),
                Turn::Bytes(4),
                Turn::Bytes(4),
            ],
            false,
            true,
        ),
        (
            [Turn::Bytes(3), Turn::Bytes(0), BROKEN, Turn::Bytes(4)],
            false,
            false,
        ),
    ] {
        let mut sink = StdSink::new(scripted(turns));
        let found = (
            put_all(&mut sink, b"four").is_ok(),
            put_all(&mut sink, b"more").is_ok(),
        );
        assert!(rt; found == (first, second));
    }
    Ok(())
}

#[test]
fn codes_are_those_of_the_statuses(rt: HostRuntime) {
    for (status, number) in [
        (Status::Done, 0),
        (Status::Uncertified, 1),
        (Status::Refused, 2),
        (Status::Usage, 3),
        (Status::ReadFault, 4),
        (Status::WriteFault, 5),
        (Status::NoMemory, 6),
    ] {
        assert_eq!(rt; code(status), number);
    }
    Idle.reached(0, 0);
}
