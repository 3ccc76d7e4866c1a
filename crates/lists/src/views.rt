ghost use Rattle.std.specs.Prelude.{◌≡◌, ◌==◌, length, [], ◌∷◌, ◌++◌, OnOk, OnErr};

use std::alloc::AllocError;
use std::marker::Model;

/// A list over a `Vec`, which contracts see as the list of its items. It is made of a `Vec` and gives it back.
#[derive(Drop)]
pub struct Sequence<T> {
    entries: Vec<T>,
}

impl<T> Model for Sequence<T> {
    ghost use Rattle.std.specs.Prelude.{List};

    ghost Value = { List T };

    ghost view = { λ s. s.entries.items };
}

impl<T> Sequence<T> {
    /// The list of the items of a `Vec`.
    pub fn new(entries: Vec<T>) -> Self
        ensures { result ≡ entries.items }
    {
        Sequence { entries }
    }

    /// The items.
    pub fn as_slice(&self) -> &[T]
        ensures { result.now ≡ self.now }
    {
        self.entries.as_slice()
    }

    /// How many items.
    pub fn len(&self) -> usize
        ensures { result ≡ length self.now }
    {
        self.entries.len()
    }

    /// Whether there is no item.
    pub fn is_empty(&self) -> bool
        ensures { result ≡ (length self.now == 0) }
    {
        self.entries.is_empty()
    }

    /// The `Vec` of the items.
    pub fn into_vec(self) -> Vec<T>
        ensures { result.items ≡ self }
    {
        let Sequence { entries } = self;
        entries
    }
}

impl<T: Drop> Sequence<T> {
    /// Puts an item at the end; where memory is short the list stays.
    pub fn push(&mut self, item: T) -> Result<(), AllocError>
        ensures ok { OnOk result (self.new ≡ self.old ++ item ∷ []) }
        ensures err { OnErr result (self.new ≡ self.old) }
    {
        self.entries.push(item)?;
        Ok(())
    }
}
