ghost use Rattle.std.specs.Prelude.{◌≡◌, ◌+◌, ◌^◌, ◌<◌, ◌≤ℤ◌, ◌<ℤ◌, ℤ, ◌+ℤ◌, ◌-ℤ◌, ◌*ℤ◌, pos, unsigned_abs, OnErr, IfOk};
ghost use Rattle.int_laws.specs.Matrices.{absolute};
ghost use Rattle.int_laws.specs.Division.{nearest_of};
ghost use Rattle.solve.specs.Numerators.{past};

use flex_interval::Wide;
use flex_num::GuardedSum;

/// The product of a number of the right side and its scale; `Wide` where it reaches 2^126.
pub fn product(number: i128, scale: i128) -> Result<GuardedSum, Wide>
    ensures value { IfOk result (λ n. n.value ≡ number *ℤ scale) }
    ensures size { IfOk result (λ n. pos n.size ≡ absolute (number *ℤ scale)) }
    ensures broad { OnErr result (pos (2 ^ 126) ≤ℤ absolute (number *ℤ scale)) }
{
    GuardedSum::of_product(number, scale).ok_or(Wide)
}

/// The product of a number of the right side and its scale.
pub fn scaled(number: i128, scale: i128) -> GuardedSum
    requires { unsigned_abs (number *ℤ scale) < 2 ^ 106 }
    ensures value { result.value ≡ number *ℤ scale }
    ensures size { result.size ≡ unsigned_abs (number *ℤ scale) }
{
    GuardedSum::of(number * scale)
}

/// A numerator less the product of an entry and the unknown of its row where the row is past `j`; `Wide` where the sizes
/// reach 2^126.
pub fn less_past(
    numerator: GuardedSum,
    j: u32,
    row: u32,
    entry: i64,
    unknown: i128,
) -> Result<GuardedSum, Wide>
    ensures value { IfOk result (λ n. n.value ≡ numerator.value -ℤ past j row (entry *ℤ unknown)) }
    ensures size { IfOk result (λ n. pos n.size ≡ pos numerator.size +ℤ past j row (absolute (entry *ℤ unknown))) }
    ensures broad { OnErr result (pos (2 ^ 126) ≤ℤ (pos numerator.size +ℤ past j row (absolute (entry *ℤ unknown)))) }
{
    if row <= j {
        return Ok(numerator);
    }
    match numerator.less_product(entry as i128, unknown) {
        Some(rest) => Ok(rest),
        None => Err(Wide),
    }
}

/// The nearest whole number to the quotient of a numerator by a diagonal entry.
pub fn quotient(numerator: GuardedSum, diagonal: i64) -> i128
    requires { pos 0 <ℤ diagonal }
    ensures { result ≡ nearest_of numerator.value diagonal }
{
    flex_num::nearest_div(numerator.value, diagonal as i128)
}
