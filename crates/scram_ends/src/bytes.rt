//! Joins and compares byte strings.
ghost use Rattle.std.specs.Prelude.{◌≡◌, ◌≤◌, ◌+◌, ◌↔◌, ◌++◌, length, IsTrue};

use arrayvec::ArrayVec;
use mac_core::copy_of;

/// The bytes of `front`, followed by those of `back`.
pub(crate) fn concatenated<const N: usize>(front: &[u8], back: &[u8]) -> ArrayVec<u8, N>
    requires { length front.now + length back.now ≤ N }
    ensures { result.items ≡ front.now ++ back.now }
{
    let mut bytes = copy_of(front);
    let Ok(()) = bytes.try_extend_from_slice(back) else {
        unreachable!()
    };
    bytes
}

/// Adds the bytes to the end of the text.
pub(crate) fn add<const N: usize>(text: &mut ArrayVec<u8, N>, bytes: &[u8])
    requires { length text.old.items + length bytes.now ≤ N }
    ensures value { text.new.items ≡ text.old.items ++ bytes.now }
    ensures len { length text.new.items ≡ length text.old.items + length bytes.now }
{
    let Ok(()) = text.try_extend_from_slice(bytes) else {
        unreachable!()
    };
}

/// Whether the bytes are the same. If there are as many of both, the steps are the same whichever byte differs; how long they take is
/// not promised.
pub(crate) fn are_same(one: &[u8], other: &[u8]) -> bool
    ensures { IsTrue result ↔ (one.now ≡ other.now) }
{
    if one.len() != other.len() {
        return false;
    }
    let mut same = true;
    for i in 0..one.len() {
        same &= one[i] == other[i];
    }
    same
}
