//! The fields of a record: what a word gives, or the number that refuses it.
ghost use Rattle.std.specs.Prelude.{◌≡◌, ◌↔◌, pos, IsTrue, IfOk, IfSome};
ghost use Rattle.text_words.specs.Names.{IsName};
ghost use Rattle.model_types.specs.Ranges.{IsIn, IsDirection, TeeInForm};
ghost use Rattle.angle_table.specs.HalfAngle.{is_bend_angle};
ghost use Rattle.model_text.specs.Fields as field;

use crate::words::Words;
use model_types::ranges::{DIRECTION_PART, PAD_THICKNESS, TEE_COEFFICIENT};
use model_types::{Name, Range, TeeKind};
use text_words::{NumberFault, number};

/// Refuses by a number where a test holds.
pub(crate) fn refuse_if(holds: bool, number: u8) -> Result<(), u8>
    ensures { result ≡ field.refuse_if holds number }
{
    if holds { Err(number) } else { Ok(()) }
}

/// A name: 7 where the word isn't one.
pub(crate) fn name_at(word: &[u8]) -> Result<Name, u8>
    ensures value { result ≡ field.name_at word.now }
    ensures form { IfOk result IsName }
{
    match Name::new(word) {
        Some(name) => Ok(name),
        None => Err(7),
    }
}

/// A number in a range: 6 where the word is no number, and 7 where it has over 18 digits or is out of the range.
#[tactic(auto, unfolding(crate::specs::Fields::number_in))]
pub(crate) fn number_in(word: &[u8], range: Range) -> Result<i64, u8>
    ensures value { result ≡ field.number_in range word.now }
    ensures range { IfOk result (IsIn range) }
{
    match number(word) {
        Ok(n) => { if is_in(n, range) { Ok(n) } else { Err(7) } }
        Err(NumberFault::NotANumber) => Err(6),
        Err(NumberFault::TooLong) => Err(7),
    }
}

fn is_in(n: i64, range: Range) -> bool
    ensures value { result ≡ field.is_in range n }
    ensures fact { IsTrue result ↔ IsIn range n }
{
    range.least <= n && n <= range.most
}

/// A number in a range, or `None` for the default.
#[tactic(auto, unfolding(crate::specs::Fields::number_or_default))]
pub(crate) fn number_or_default(word: &[u8], range: Range) -> Result<Option<i64>, u8>
    ensures value { result ≡ field.number_or_default range word.now }
    ensures range { IfOk result (λ n. IfSome n (IsIn range)) }
{
    if is_default(word) {
        return Ok(None);
    }
    let n = number_in(word, range)?;
    Ok(Some(n))
}

/// Whether a word is `-`, which stands for a default.
pub(crate) fn is_default(word: &[u8]) -> bool
    ensures { result ≡ field.is_default word.now }
{
    word == b"-".as_slice()
}

// What stands for no number.
const NOTHING: Range = Range { least: 0, most: 0 };

/// How a tee is made, in the words 4 and 5 of a line: 9 where the first is no kind of tee, before the second is looked at.
#[tactic(auto, unfolding(crate::specs::Fields::connection_at))]
pub(crate) fn connection_of(line: &Words) -> Result<TeeKind, u8>
    ensures value { result ≡ field.connection_at line.now 4 }
    ensures form { IfOk result TeeInForm }
{
    let kind = line.word(4);
    let value = line.word(5);
    if kind == b"unreinforced".as_slice() {
        number_in(value, NOTHING)?;
        return Ok(TeeKind::Unreinforced);
    }
    if kind == b"pad".as_slice() {
        let thickness = number_in(value, PAD_THICKNESS)?;
        return Ok(TeeKind::Pad(thickness));
    }
    if kind == b"coefficient".as_slice() {
        let c = number_in(value, TEE_COEFFICIENT)?;
        return Ok(TeeKind::Coefficient(c));
    }
    Err(9)
}

// From the least angle of a bend to the greatest.
const ANGLE: Range = Range {
    least: 22_500,
    most: 180_000,
};

/// The angle of a bend, in thousandths of a degree: 7 where it is none of the six.
#[tactic(auto, unfolding(crate::specs::Fields::angle_at))]
pub(crate) fn angle_at(word: &[u8]) -> Result<u32, u8>
    ensures value { result ≡ field.angle_at word.now }
    ensures listed { IfOk result (λ angle. IsTrue (is_bend_angle angle)) }
{
    let angle = number_in(word, ANGLE)? as u32;
    refuse_if(!is_listed(angle), 7)?;
    Ok(angle)
}

// Whether a bend may have an angle.
fn is_listed(angle: u32) -> bool
    ensures { result ≡ is_bend_angle angle }
{
    angle == 22_500
        || angle == 30_000
        || angle == 45_000
        || angle == 60_000
        || angle == 90_000
        || angle == 180_000
}

// 0 or 1.
const FLAG: Range = Range { least: 0, most: 1 };

/// Whether a word is 1 and not 0.
#[tactic(auto, unfolding(crate::specs::Fields::flag_at))]
pub(crate) fn flag_at(word: &[u8]) -> Result<bool, u8>
    ensures { result ≡ field.flag_at word.now }
{
    let n = number_in(word, FLAG)?;
    Ok(n == 1)
}

/// The parts of a direction.
#[derive(Clone, Copy)]
pub(crate) struct Direction {
    pub(crate) x: i64,
    pub(crate) y: i64,
    pub(crate) z: i64,
}

/// A direction, in the words 3 to 5 of a line: 7 where all its parts are 0.
#[tactic(auto, unfolding(crate::specs::Fields::direction_at))]
pub(crate) fn direction_of(line: &Words) -> Result<Direction, u8>
    ensures value { result ≡ field.direction_at line.now 3 }
    ensures form { IfOk result (λ d. IsDirection d.x d.y d.z) }
{
    let x = number_in(line.word(3), DIRECTION_PART)?;
    let y = number_in(line.word(4), DIRECTION_PART)?;
    let z = number_in(line.word(5), DIRECTION_PART)?;
    refuse_if(is_zero(x, y, z), 7)?;
    Ok(Direction { x, y, z })
}

fn is_zero(x: i64, y: i64, z: i64) -> bool
    ensures value { result ≡ field.is_zero x y z }
    ensures fact { IsTrue result ↔ ((x ≡ pos 0) × (y ≡ pos 0) × (z ≡ pos 0)) }
{
    x == 0 && y == 0 && z == 0
}
