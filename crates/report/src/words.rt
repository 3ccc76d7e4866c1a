ghost use Rattle.std.specs.Prelude.{◌≡◌, ◌∷◌, ◌++◌, map, OnErr, OnOk};
ghost use Rattle.std.specs.Io.{StartsWith};
ghost use Rattle.std.specs.Fmt.{signed_decimal};
ghost use Rattle.report.specs.Words.{spaced};

use itoa::Buffer;
use model_types::NoMemory;

/// Writes a space and a word.
pub(crate) fn push_word(out: &mut Vec<u8>, word: &[u8]) -> Result<(), NoMemory>
    ensures written { OnOk result (out.new.items ≡ out.old.items ++ 32 ∷ word.now) }
    ensures kept { OnErr result (StartsWith out.new.items out.old.items) }
{
    out.push(b' ')?;
    out.extend_from_slice(word)?;
    Ok(())
}

/// Writes words, each behind a space.
pub(crate) fn push_words(out: &mut Vec<u8>, words: &[&[u8]]) -> Result<(), NoMemory>
    ensures written { OnOk result (out.new.items ≡ out.old.items ++ spaced (map (λ word. word.now) words.now)) }
    ensures kept { OnErr result (StartsWith out.new.items out.old.items) }
{
    for word in words {
        push_word(out, word)?;
    }
    Ok(())
}

/// Writes a space and the decimal form of a number.
pub(crate) fn push_number(out: &mut Vec<u8>, n: i128) -> Result<(), NoMemory>
    ensures written { OnOk result (out.new.items ≡ out.old.items ++ 32 ∷ signed_decimal n) }
    ensures kept { OnErr result (StartsWith out.new.items out.old.items) }
{
    let mut digits = Buffer::new();
    push_word(out, digits.format(n).as_bytes())
}
