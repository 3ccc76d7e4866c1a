//! The line that tells why a text is refused.
ghost use Rattle.std.specs.Prelude.{◌≡◌, IfOk};
ghost use Rattle.pipeflex_top.specs.Refusal as told;

use itoa::Buffer;
use model_types::NoMemory;
use std::alloc::Global;
use text_words::push_line;

/// The line of a refusal by this number at this line of the text.
pub fn refusal_line(alloc: Global, number: u8, line: u32) -> Result<Vec<u8>, NoMemory>
    ensures { IfOk result (λ bytes. bytes.items ≡ told.refusal_line (record { number = number; line = line })) }
{
    let (mut number_buffer, mut line_buffer) = (Buffer::new(), Buffer::new());
    let word = word_of(number);
    let number = number_buffer.format(number).as_bytes();
    let line = line_buffer.format(line).as_bytes();
    let mut out = Vec::new(alloc);
    push_line(&mut out, &[b"refused", number, b"line", line, word])?;
    Ok(out)
}

// The word of a number of refusal, 1 to 17.
fn word_of(number: u8) -> &'static [u8]
    ensures { result.now ≡ told.refusal_word number }
{
    match number {
        1 => b"toolong",
        2 => b"badbyte",
        3 => b"header",
        4 => b"unknownrecord",
        5 => b"wordcount",
        6 => b"badnumber",
        7 => b"outofrange",
        8 => b"doubled",
        9 => b"unknownname",
        10 => b"zerolength",
        11 => b"longelement",
        12 => b"geometry",
        13 => b"walltoothick",
        14 => b"toomany",
        15 => b"missing",
        16 => b"front",
        _ => b"unbuilt",
    }
}
