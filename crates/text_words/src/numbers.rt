ghost use Rattle.std.specs.Prelude.{◌≡◌, ◌↔◌, ◌^◌, ◌<◌, ◌≤◌, ℤ, pos, IsTrue, Ok, Err, IfOk, length};
ghost use Rattle.std.specs.List.{list_all};
ghost use Rattle.std.specs.Char.{is_ascii_digit};
ghost use Rattle.std.specs.Str.Parse.{digits_value};
ghost use Rattle.text_words.specs.Numbers.{IsNumber, IsLongNumber, number_of, has_number_form, is_plain_digits, has_sign, digits_part, signed_value};

use thiserror::Error;

const MOST_DIGITS: usize = 18;

/// Why a word is not a number.
#[derive(Clone, Copy, Debug, PartialEq, Eq, Error)]
pub enum NumberFault {
    /// It is neither `0` nor an optional `-` and digits without a leading zero.
    #[error("not a number")]
    NotANumber,
    /// It has over 18 digits.
    #[error("a number of over 18 digits")]
    TooLong,
}

fn are_digits(bytes: &[u8]) -> bool
    ensures { result ≡ list_all is_ascii_digit bytes.now }
{
    bytes.iter().all(u8::is_ascii_digit)
}

fn is_plain_digits(digits: &[u8]) -> bool
    ensures { result ≡ is_plain_digits digits.now }
{
    !digits.is_empty() && are_digits(digits) && digits[0] != b'0'
}

fn digits_value(digits: &[u8]) -> i64
    requires each { IsTrue (list_all is_ascii_digit digits.now) }
    requires short { length digits.now ≤ 18 }
    ensures value { result ≡ pos (digits_value 10 digits.now) }
    ensures small { digits_value 10 digits.now < 10 ^ 18 }
{
    let mut value = 0;
    for digit in digits {
        value = value * 10 + u64::from(digit - b'0');
    }
    value as i64
}

fn has_sign(word: &[u8]) -> bool
    ensures { result ≡ has_sign word.now }
{
    !word.is_empty() && word[0] == b'-'
}

fn digits_part(word: &[u8]) -> &[u8]
    ensures { result.now ≡ digits_part word.now }
{
    if has_sign(word) { &word[1..] } else { word }
}

fn has_number_form(word: &[u8]) -> bool
    ensures { result ≡ has_number_form word.now }
{
    word == b"0".as_slice() || is_plain_digits(digits_part(word))
}

fn signed_value(word: &[u8]) -> i64
    requires form { IsTrue (has_number_form word.now) }
    requires short { length (digits_part word.now) ≤ 18 }
    ensures { result ≡ signed_value word.now }
{
    let size = digits_value(digits_part(word));
    if has_sign(word) { -size } else { size }
}

#[tactic(auto, unfolding(crate::specs::Numbers::number_of))]
fn represented(word: &[u8]) -> Result<i64, NumberFault>
    ensures { result ≡ number_of word.now }
{
    if !has_number_form(word) {
        return Err(NumberFault::NotANumber);
    }
    if digits_part(word).len() > MOST_DIGITS {
        return Err(NumberFault::TooLong);
    }
    Ok(signed_value(word))
}

/// The number that a word represents.
pub fn number(word: &[u8]) -> Result<i64, NumberFault>
    ensures exact { result ≡ number_of word.now }

    // What is read is the number's decimal form.
    ensures form { IfOk result (IsNumber word.now) }

    // Each decimal form of at most 18 digits is read.
    ensures only { (n : ℤ) → IsNumber word.now n → result ≡ Ok n }

    // What is too long is the decimal form of a number of over 18 digits, and each such form is too long.
    ensures long { (result ≡ Err NumberFault.TooLong) ↔ ((n : ℤ) × IsLongNumber word.now n) }
{
    represented(word)
}
