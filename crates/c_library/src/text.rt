//! The server's messages, composed in a fixed buffer.
ghost use Rattle.std.specs.Prelude.{◌≡◌, ◌≤◌, ◌+◌, [], ◌++◌, length};
ghost use Rattle.scram_text.specs.Base64Field.{base64};
ghost use Rattle.scram_text.specs.Class.{IsNonce};
ghost use Rattle.scram_text.specs.Limits.{max_nonce_part_len};
ghost use Rattle.scram_text.specs.Messages.{IsServerFirst};
ghost use Rattle.scram_text.specs.Written.{server_first_of};
ghost use Rattle.scram_ends.specs.Verdict.{due_of, due_text};

use arrayvec::ArrayVec;
use base64::engine::general_purpose::STANDARD;
use itoa::Buffer;
use mac_core::law_of_bytes;
use scram_ends::Judged;
use scram_text::{NoncePart, Salt};

/// The longest message of a server: `r=`, a nonce of 512 bytes, `,s=`, the base64 of a salt of 64 bytes, `,i=` and a count.
pub(crate) const MAX_TEXT_LEN: usize = 618;

/// A message of a server.
pub(crate) type Text = ArrayVec<u8, MAX_TEXT_LEN>;

/// The challenge with this nonce, which begins with the client's, this salt and this count.
pub(crate) fn challenge(nonce: &[u8], server_nonce: &NoncePart, salt: &Salt, count: u32) -> Text
    requires nonce { IsNonce max_nonce_part_len nonce.now }
    requires count { 1 ≤ count }
    ensures { IsServerFirst result.items (server_first_of (nonce.now ++ server_nonce.now) salt.now count []) }
{
    // For the proof: the elements of the salt are bytes.
    law_of_bytes(salt.bytes());
    let mut text = Text::new();
    add(&mut text, b"r=");
    add(&mut text, nonce);
    add(&mut text, server_nonce.bytes());
    add(&mut text, b",s=");
    add_base64(&mut text, salt.bytes());
    add(&mut text, b",i=");
    add(&mut text, Buffer::new().format(count).as_bytes());
    text
}

/// The server-final message that reports this verdict.
pub(crate) fn report(judged: &Judged) -> Text
    ensures { result.items ≡ due_text (due_of judged.now) }
{
    let mut text = Text::new();
    match judged {
        Judged::Accepted(signature) => {
            add(&mut text, b"v=");
            add_base64(&mut text, signature.as_slice());
        }
        Judged::Refused(refusal) => {
            add(&mut text, b"e=");
            add(&mut text, refusal.error_value().as_bytes());
        }
    }
    text
}

/// Adds the base64 of up to 64 bytes.
pub(crate) fn add_base64<const N: usize>(text: &mut ArrayVec<u8, N>, bytes: &[u8])
    requires most { length bytes.now ≤ 64 }
    requires room { length text.old.items + 88 ≤ N }
    ensures value { text.new.items ≡ text.old.items ++ base64 bytes.now }
    ensures len { length text.new.items ≤ length text.old.items + 88 }
{
    let mut buffer = [0; 88];
    let Ok(size) = STANDARD.encode_slice(bytes, &mut buffer) else {
        unreachable!()
    };
    add(text, &buffer[..size]);
}

/// Adds a piece.
pub(crate) fn add<const N: usize>(text: &mut ArrayVec<u8, N>, piece: &[u8])
    requires { length text.old.items + length piece.now ≤ N }
    ensures value { text.new.items ≡ text.old.items ++ piece.now }
    ensures len { length text.new.items ≡ length text.old.items + length piece.now }
{
    if text.try_extend_from_slice(piece).is_err() {
        unreachable!()
    }
}
