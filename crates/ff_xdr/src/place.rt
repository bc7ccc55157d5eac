//! Where the values of a list are.

ghost use Rattle.std.specs.Prelude.{◌≡◌, ⊤};

use std::alloc::AllocError;

/// Where the values of a list are.
pub enum ItemsPlace<'a, T> {
    /// Spelled in a slice from a place on, so many of them.
    InBytes {
        bytes: &'a [u8],
        at: usize,
        count: u32,
    },
    /// In a slice of values.
    Made(&'a [T]),
}

impl<'a, T> Clone for ItemsPlace<'a, T> {
    ghost is_clone = { λ x y. y ≡ x };

    ghost is_infallible = { λ _. ⊤ };

    fn clone(&self) -> Result<ItemsPlace<'a, T>, AllocError> {
        Ok(*self)
    }
}

impl<'a, T> Copy for ItemsPlace<'a, T> {}
