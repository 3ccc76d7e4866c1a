//! The words of a line.
ghost use Rattle.std.specs.Prelude.{◌≡◌, ◌∷◌, ◌+◌, ◌<◌, ◌≤◌, length, position, option_copied};
ghost use Rattle.std.specs.List.{before_first, list_all, slice_split};
ghost use Rattle.model_text.specs.Words.{is_blank, starts_comment, is_allowed, is_word, words, word, parts_left};

/// No record has more words.
pub(crate) const MOST_WORDS: usize = 10;

// One place for each, and one for any further word.
const PLACES: usize = 11;

/// A line that is cut into words. The first ten are at hand.
#[derive(Drop)]
pub(crate) struct Words<'a> {
    line: &'a [u8],
    first: [&'a [u8]; PLACES],
    count: usize,
}

impl<'a> std::marker::Model for Words<'a> {
    ghost use Rattle.std.specs.Prelude.{ℕ, List};
    ghost use Rattle.model_text.specs.Words.{words};

    ghost Value = { List (List ℕ) };

    ghost view = { λ w. words w.line.now };

    ghost use Rattle.std.specs.Prelude.{map};
    ghost use Rattle.model_text.specs.Words.{AreFirstWords};

    ghost invariant = { λ w. AreFirstWords (words w.line.now) w.count (map (λ part. part.now) w.first) };
}

impl<'a> Words<'a> {
    /// The words of a line.
    pub(crate) fn of(line: &'a [u8]) -> Words<'a>
        ensures { result ≡ words line.now }
    {
        let mut first: [&'a [u8]; PLACES] = [b""; PLACES];
        let mut count = 0;
        let mut rest = Some(before_comment(line));
        while let Some(left) = rest {
            let (part, behind) = cut_part(left);
            if is_word(part) {
                first[place_of(count)] = part;
                count = one_more(line, count);
            }
            rest = behind;
        }
        Words { line, first, count }
    }

    /// How many words the line has.
    pub(crate) fn count(&self) -> usize
        ensures { result ≡ length self.now }
    {
        self.count
    }

    /// The word with `k` words before it; nothing where the line has no more than `k` words.
    pub(crate) fn word(&self, k: usize) -> &'a [u8]
        requires { k < MOST_WORDS }
        ensures { result.now ≡ word self.now k }
    {
        self.first[k]
    }
}

// A count of words, which a line has no more of than bytes and one, and one more.
fn one_more(line: &[u8], count: usize) -> usize
    requires { count ≤ length line.now }
    ensures { result ≡ count + 1 }
{
    count + 1
}

// The place of a word with `count` words before it.
fn place_of(count: usize) -> usize
    ensures own { count < MOST_WORDS → result ≡ count }
    ensures other { MOST_WORDS ≤ count → result ≡ MOST_WORDS }
    ensures inside { result < PLACES }
{
    if count < MOST_WORDS {
        count
    } else {
        MOST_WORDS
    }
}

// What stands before the first blank, and what stands behind it where there is one.
fn cut_part(bytes: &[u8]) -> (&[u8], Option<&[u8]>)
    ensures { slice_split is_blank bytes.now ≡ result.0.now ∷ parts_left (option_copied result.1) }
{
    match blank_at(bytes) {
        Some(at) => (&bytes[..at], Some(&bytes[at + 1..])),
        None => (bytes, None),
    }
}

// Where the first blank stands.
fn blank_at(bytes: &[u8]) -> Option<usize>
    ensures { result ≡ position is_blank bytes.now }
{
    bytes.iter().position(|byte| is_blank(*byte))
}

/// Whether each byte of a line may stand in a text.
pub(crate) fn is_allowed(line: &[u8]) -> bool
    ensures { result ≡ list_all is_allowed line.now }
{
    line.iter().all(|byte| is_allowed_byte(*byte))
}

// What stands before a comment.
fn before_comment(line: &[u8]) -> &[u8]
    ensures { result.now ≡ before_first starts_comment line.now }
{
    match comment_at(line) {
        Some(at) => &line[..at],
        None => line,
    }
}

// Where a comment starts.
fn comment_at(line: &[u8]) -> Option<usize>
    ensures { result ≡ position starts_comment line.now }
{
    line.iter().position(|byte| *byte == b'#')
}

fn is_allowed_byte(byte: u8) -> bool
    ensures { result ≡ is_allowed byte }
{
    (byte >= b' ' && byte <= b'~') || byte == b'\t'
}

fn is_blank(byte: u8) -> bool
    ensures { result ≡ is_blank byte }
{
    byte == b' ' || byte == b'\t'
}

fn is_word(part: &[u8]) -> bool
    ensures { result ≡ is_word part.now }
{
    !part.is_empty()
}
