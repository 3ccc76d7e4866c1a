ghost use Rattle.std.specs.Prelude.{◌≡◌, ◌<◌, ◌⊎◌, ◌↔◌, ℕ, length, slice_index, Contains, OnOk, MatchOption};
ghost use Rattle.lists.specs.Rising.{IsRising, InsertsLater};

use std::alloc::AllocError;

/// Puts a number into a rising list, where it is not there already.
pub fn insert_rising(list: &mut Vec<u32>, number: u32) -> Result<(), AllocError>
    requires { IsRising list.old.items }
    ensures rising { OnOk result (IsRising list.new.items) }
    ensures members { OnOk result ((x : ℕ) → Contains list.new.items x ↔ (Contains list.old.items x ⊎ (x ≡ number))) }
{
    if let Err(place) = list.binary_search(&number) {
        list.insert(place, number)?;
    }
    Ok(())
}

/// Puts the numbers above `least` into a rising list.
pub fn insert_later(list: &mut Vec<u32>, numbers: &[u32], least: u32) -> Result<(), AllocError>
    requires { IsRising list.old.items }
    ensures { OnOk result (InsertsLater list.old.items list.new.items numbers.now least) }
{
    for &number in numbers {
        if number > least {
            insert_rising(list, number)?;
        }
    }
    Ok(())
}

/// The place of a number in a rising list.
pub fn find_rising(list: &[u32], number: u32) -> Option<usize>
    requires { IsRising list.now }
    ensures { MatchOption result
        (Contains list.now number → ⊥)
        (λ place. (place < length list.now) × (slice_index list.now place ≡ number)) }
{
    list.binary_search(&number).ok()
}
