ghost use Rattle.std.specs.Prelude.{◌≡◌, ◌∷◌, ◌++◌, ◌==◌, map, position, option_copied, MatchOption, OnErr, OnOk};
ghost use Rattle.std.specs.Io.{StartsWith};
ghost use Rattle.std.specs.Option.{option_map};
ghost use Rattle.text_words.specs.Fields.{line, lines, lines_left, split_at_first, Lacks, IsSplit};

use std::alloc::AllocError;

fn position(bytes: &[u8], end: u8) -> Option<usize>
    ensures { result ≡ position (λ b. b == end) bytes.now }
{
    bytes.iter().position(|&byte| byte == end)
}

/// What stands before and after the first byte `end`. `None` where there is none.
pub fn split_once(bytes: &[u8], end: u8) -> Option<(&[u8], &[u8])>
    ensures value { option_map (λ parts. (parts.0.now, parts.1.now)) result ≡ split_at_first end bytes.now }
    ensures parts { MatchOption result (Lacks end bytes.now)
        (λ parts. IsSplit end bytes.now parts.0.now parts.1.now) }
{
    let at = position(bytes, end)?;
    Some((&bytes[..at], &bytes[at + 1..]))
}

/// The first line of a text, and what stands after its line feed where it has one.
pub fn cut_line(text: &[u8]) -> (&[u8], Option<&[u8]>)
    ensures lines { lines text.now ≡ result.0.now ∷ lines_left (option_copied result.1) }
{
    match split_once(text, b'\n') {
        Some((line, rest)) => (line, Some(rest)),
        None => (text, None),
    }
}

/// Writes a line at the end: the words with single spaces between them, and a line feed.
#[tactic(auto, unfolding(crate::specs::Fields::line))]
pub fn push_line(out: &mut Vec<u8>, words: &[&[u8]]) -> Result<(), AllocError>
    ensures written { OnOk result (out.new.items ≡ out.old.items ++ line (map (λ word. word.now) words.now)) }

    // Where memory runs out, what was there before still stands before what was written.
    ensures kept { OnErr result (StartsWith out.new.items out.old.items) }
{
    for (i, word) in words.iter().enumerate() {
        if i > 0 {
            out.push(b' ')?;
        }
        out.extend_from_slice(word)?;
    }
    out.push(b'\n')?;
    Ok(())
}
