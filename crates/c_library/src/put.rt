//! Writes into buffers of C.
ghost use Rattle.std.specs.Prelude.{◌≡◌, ◌≤◌, ◌<◌, length};
ghost use Rattle.std.specs.Bool.{OnTrue, OnFalse};
ghost use Rattle.c_library.specs.Buffers.{IsPut, IsPadded};

/// Writes the text to the front of `out`, and its length to `out_len`. Returns whether there was room: if not, both are as before.
pub(crate) fn put(text: &[u8], out: &mut [u8], out_len: &mut usize) -> bool
    ensures put { OnTrue result ((length text.now ≤ length out.old) × IsPut out.old out.new text.now × (out_len.new ≡ length text.now)) }
    ensures not { OnFalse result ((length out.old < length text.now) × (out.new ≡ out.old) × (out_len.new ≡ out_len.old)) }
{
    if out.len() < text.len() {
        return false;
    }
    out[..text.len()].copy_from_slice(text);
    *out_len = text.len();
    true
}

/// The bytes, of which there are at most `N`, and zeros after them.
pub(crate) fn padded<const N: usize>(bytes: &[u8]) -> [u8; N]
    requires { length bytes.now ≤ N }
    ensures { IsPadded N result bytes.now }
{
    let mut all = [0; N];
    all[..bytes.len()].copy_from_slice(bytes);
    all
}
