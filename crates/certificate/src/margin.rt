ghost use Rattle.std.specs.Prelude.{◌≡◌, ◌*◌, ◌^◌, ◌≤◌, ℤ, pos, ◌-ℤ◌, ◌*ℤ◌, ◌<ℤ◌, MatchOption};

/// A factor's entries are in units of `2^-26` of the square root of a stiffness: its products have this scale.
pub const SCALE: u128 = 1 << 52;

/// What the shift leaves of a row's losses to the residual and to the radii, where that is 1 or more.
pub fn margin(shift: u64, residual: u128, radius: u128) -> Option<u128>
    ensures { let margin = ((pos (2 ^ 52) *ℤ pos shift) -ℤ pos residual) -ℤ (pos (2 ^ 52) *ℤ pos radius) in
        MatchOption result (margin <ℤ pos (2 ^ 52)) (λ m. (pos m ≡ margin) × (2 ^ 52 ≤ m)) }
{
    let lost = radius.checked_mul(SCALE)?.checked_add(residual)?;
    let margin = (shift as u128 * SCALE).checked_sub(lost)?;
    if margin < SCALE { None } else { Some(margin) }
}
