ghost use Rattle.std.specs.Prelude.{◌≡◌, ◌≤◌, length, ⊤};

use std::alloc::AllocError;

mod calls;

// The first `used` places are the items; a filler stands in the others.
#[derive(Copy)]
pub struct Bounded<T, const N: usize> {
    items: [T; N],
    used: usize,
    ghost room: { length items ≡ N },
    ghost within: { used ≤ N },
}

// Written out, since the derive is refused on a generic struct that has ghost fields.
impl<T: Copy, const N: usize> Clone for Bounded<T, N> {
    ghost is_clone = { λ list copied. copied ≡ list };

    ghost is_infallible = { λ _. ⊤ };

    fn clone(&self) -> Result<Bounded<T, N>, AllocError> {
        Ok(*self)
    }
}
