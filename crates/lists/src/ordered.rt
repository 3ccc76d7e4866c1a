ghost use Rattle.std.specs.Prelude.{◌≡◌, ◌^◌, ◌<◌, ◌≤◌, length, slice_index, IfOk};
ghost use Rattle.lists.specs.Order.{IsOrder, place_of, places_of};

use std::alloc::{AllocError, Global};
use std::marker::Model;

/// A permutation of the numbers below its length, with its inverse, the place of each number. Contracts see it as the
/// list of its numbers.
#[derive(Drop)]
pub struct Permutation {
    numbers: Vec<u32>,
    places: Vec<u32>,
}

impl Model for Permutation {
    ghost use Rattle.std.specs.Prelude.{List, ℕ};
    ghost use Rattle.lists.specs.Order.{HasPlaces};

    ghost Value = { List ℕ };

    ghost view = { λ p. p.numbers.items };

    ghost invariant = { λ p. HasPlaces p.numbers.items p.places.items };
}

impl Permutation {
    /// The permutation that a list is.
    pub fn new(alloc: Global, numbers: Vec<u32>) -> Result<Permutation, AllocError>
        requires order { IsOrder numbers.items }
        requires numbered { length numbers.items ≤ 2 ^ 32 }
        ensures { IfOk result (λ p. p ≡ numbers.items) }
    {
        let places = inverse(alloc, &numbers)?;
        Ok(Permutation { numbers, places })
    }

    /// How many numbers.
    pub fn len(&self) -> usize
        ensures { result ≡ length self.now }
    {
        self.numbers.len()
    }

    /// The number at a place.
    pub fn number_at(&self, place: u32) -> u32
        requires { place < length self.now }
        ensures { result ≡ slice_index self.now place }
    {
        self.numbers[place as usize]
    }

    /// The place of a number.
    pub fn place_of(&self, number: u32) -> u32
        requires { number < length self.now }
        ensures { result ≡ place_of number self.now }
    {
        self.places[number as usize]
    }

    /// The numbers, each at its place.
    pub fn numbers(&self) -> &[u32]
        ensures value { result.now ≡ self.now }
        ensures order { IsOrder self.now }
    {
        self.numbers.as_slice()
    }

    /// The place of each number.
    pub fn places(&self) -> &[u32]
        ensures value { result.now ≡ places_of self.now }
        ensures order { IsOrder self.now }
    {
        self.places.as_slice()
    }
}

// The place of each number of an order.
fn inverse(alloc: Global, numbers: &[u32]) -> Result<Vec<u32>, AllocError>
    requires order { IsOrder numbers.now }
    requires numbered { length numbers.now ≤ 2 ^ 32 }
    ensures { IfOk result (λ places. places.items ≡ places_of numbers.now) }
{
    let mut places = vec![in alloc; 0; numbers.len()]?;
    for place in 0..numbers.len() {
        places[numbers[place] as usize] = place as u32;
    }
    Ok(places)
}
