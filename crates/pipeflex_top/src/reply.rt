//! What the program has to say, before the first byte of it is written.
ghost use Rattle.std.specs.Prelude.{◌≡◌, [], MatchResult};
ghost use Rattle.pipeflex_top.specs.Run.{message_bytes};

use flex_io::Status;
use model_types::NoMemory;
use std::alloc::{AllocError, Global};

/// How a run is to end, and what it is to write.
#[derive(Drop)]
pub struct Reply {
    pub status: Status,
    /// For the standard output.
    pub output: Vec<u8>,
    /// For the standard error.
    pub message: Message,
}

/// What is to be told.
#[derive(Drop)]
pub enum Message {
    Fixed(&'static [u8]),
    Built(Vec<u8>),
}

impl Message {
    /// Its bytes.
    pub fn bytes(&self) -> &[u8]
        ensures { result.now ≡ message_bytes self.now }
    {
        match self {
            Message::Fixed(bytes) => bytes,
            Message::Built(bytes) => bytes.as_slice(),
        }
    }
}

/// A reply that writes this to the standard output and nothing else.
pub fn output_only(status: Status, output: Vec<u8>) -> Reply
    ensures status { result.status ≡ status }
    ensures output { result.output ≡ output }
    ensures message { message_bytes result.message ≡ [] }
{
    Reply {
        status,
        output,
        message: Message::Fixed(b""),
    }
}

/// A reply that writes this line to the standard error and nothing else.
pub fn line_only(alloc: Global, status: Status, message: &'static [u8]) -> Reply
    ensures status { result.status ≡ status }
    ensures output { result.output.items ≡ [] }
    ensures message { message_bytes result.message ≡ message.now }
{
    Reply {
        status,
        output: Vec::new(alloc),
        message: Message::Fixed(message),
    }
}

/// The reply of a run that is done once this is written, or that memory ran out.
pub fn done(alloc: Global, made: Result<Vec<u8>, NoMemory>) -> Reply
    ensures made { MatchResult made
        (λ output. (result.status ≡ Status.Done) × (result.output ≡ output))
        (λ _. (result.status ≡ Status.NoMemory) × (result.output.items ≡ [])) }
    ensures message { message_bytes result.message ≡ [] }
{
    match made {
        Ok(output) => output_only(Status::Done, output),
        Err(AllocError) => line_only(alloc, Status::NoMemory, b""),
    }
}
