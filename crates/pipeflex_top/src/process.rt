//! The process: its words, its standard streams and its exit status.
use crate::program::run;
use flex_io::{Idle, Status, StdSink, StdSource, code};
use std::io::ErrorKind;
use std::process::ExitCode;
use std::thread::Threads;
use std::{env, io};

/// Runs the program on the words and the standard streams of the host's process, and answers the exit
/// status that it is to end with.
pub fn run_process<R: Threads + Sync>(threads: &R, host: &HostRuntime) -> ExitCode {
    let words = match words(host) {
        Ok(words) => words,
        // A word that is no text has none of the forms, and neither has no word.
        Err(e) if e.kind() == ErrorKind::InvalidData => Vec::new(host.alloc()),
        Err(_) => return ExitCode::from(code(Status::NoMemory)),
    };
    let mut source = StdSource::new(host.stdin());
    let mut out = StdSink::new(host.stdout());
    let mut err = StdSink::new(host.stderr());
    let status = run(
        threads,
        host.alloc(),
        &words,
        &mut source,
        &mut out,
        &mut err,
        &Idle,
    );
    ExitCode::from(code(status))
}

// The words of the command line behind the program's name.
fn words(host: &HostRuntime) -> io::Result<Vec<String>> {
    let mut args = env::args(host)?;
    args.next();
    Ok(args.collect(host.alloc())?)
}
