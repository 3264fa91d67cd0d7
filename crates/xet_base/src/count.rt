//! A counter that only contracts see.

ghost use Rattle.std.specs.Prelude.{◌≡◌, ℕ, ◌+◌};

use std::marker::{Model, PhantomData};

/// Counts without a limit and takes no bytes at run time. Only [`Count::add`] moves its value, so a
/// source that forgets to count is refused by the contract of its trait.
#[derive(Drop)]
pub struct Count {
    marker: PhantomData<()>,
    pub ghost value: { ℕ },
}

impl Model for Count {
    ghost use base.Fml.{ftrue};

    ghost also_owns = { λ _. ftrue };
}

impl Count {
    /// A counter at 0.
    pub fn new() -> Count
        ensures { result.value ≡ 0 }
    {
        Count {
            marker: PhantomData,
        }
    }

    /// Adds `n`.
    pub fn add(&mut self, n: u64)
        ensures { self.new.value ≡ self.old.value + n }
    {}
}
