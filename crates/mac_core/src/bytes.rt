//! Copies of bytes in fixed buffers, and the law that the elements of a slice are bytes.
ghost use Rattle.std.specs.Prelude.{◌≡◌, ◌≤◌, ◌<◌, ℕ, length, slice_index};

use arrayvec::ArrayVec;

/// A copy of `bytes`, of which there are at most `N`.
pub fn copy_of<const N: usize>(bytes: &[u8]) -> ArrayVec<u8, N>
    requires { length bytes.now ≤ N }
    ensures { result.items ≡ bytes.now }
{
    let Ok(copy) = ArrayVec::try_from(bytes) else {
        unreachable!()
    };
    copy
}

/// A law, which does nothing at run time: the elements of a slice are bytes by their type, so each is less than 256. Only a
/// caller's proof needs it.
pub fn law_of_bytes(bytes: &[u8])
    ensures { (i : ℕ) → slice_index bytes.now i < 256 }
{}
