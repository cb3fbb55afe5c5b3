//! The two messages after client-first in their usual form, without extensions: they are compared with the only such text that is right,
//! which takes less time than to read them. Texts of another form are read.
ghost use Rattle.std.specs.Prelude.{◌≡◌, ◌≤◌, ◌+◌, ◌↔◌, ℕ, List, [], ◌++◌, length, take, codes, decimal, IfSome, IfNone, IsTrue};
ghost use Rattle.std.specs.List.{list_all};
ghost use Rattle.base64.specs.Decode.{decoded_estimate};
ghost use Rattle.scram_text.specs.Base64Field.{base64, IsField};
ghost use Rattle.scram_text.specs.Class.{is_printable, IsNonce};
ghost use Rattle.scram_text.specs.Limits.{max_nonce_len, max_tag_len};
ghost use Rattle.scram_text.specs.Messages.{ServerFirstParts, IsClientFinal, client_final_without_proof};
ghost use Rattle.scram_text.specs.Written.{client_final_of, server_first_of};
ghost use Rattle.scram_ends.specs.Opening.{ExtendsNonce};
ghost use Rattle.scram_ends.specs.inner.Stateless.{IsAnswered};

use crate::bytes::{add, are_same};
use crate::recorded::extends_nonce;
use arrayvec::ArrayVec;
use base64::engine::general_purpose::STANDARD;
use itoa::Buffer;
use mac_core::{Tag, copy_of, law_of_bytes};
use scram_text::{MAX_NONCE_LEN, MAX_SALT_LEN, MAX_TAG_LEN, read_server_first};

// The greatest length of the base64 of 64 bytes.
const MAX_BASE64_LEN: usize = 88;

// The greatest length of a gs2-header that is compared, in bytes.
const MAX_USUAL_HEADER_LEN: usize = 64;

// `c=`, the base64 of a gs2-header, and `,r=`.
const MAX_FRONT_LEN: usize = 2 + MAX_BASE64_LEN + 3;

// `,s=`, the base64 of a salt, `,i=`, and a count.
const MAX_TAIL_LEN: usize = 3 + MAX_BASE64_LEN + 3 + 10;

/// The nonce of a challenge to the client's nonce, with this salt and count, or None if the text is no such challenge.
pub(crate) fn answered_nonce<'a>(
    salt: &[u8],
    count: u32,
    client: &[u8],
    server_first: &'a [u8],
) -> Option<&'a [u8]>
    ensures some { IfSome result (λ nonce. (challenge : ServerFirstParts)
        × IsAnswered salt.now count client.now server_first.now challenge × (nonce.now ≡ challenge.nonce)) }
    ensures none { IfNone result ((challenge : ServerFirstParts)
        → IsAnswered salt.now count client.now server_first.now challenge → ⊥) }
    ensures class { IfSome result (λ nonce. IsNonce max_nonce_len nonce.now) }
{
    match usual_nonce(salt, count, client, server_first) {
        Some(nonce) => Some(nonce),
        None => read_nonce(salt, count, client, server_first),
    }
}

// As `answered_nonce`, for any text.
fn read_nonce<'a>(
    salt: &[u8],
    count: u32,
    client: &[u8],
    server_first: &'a [u8],
) -> Option<&'a [u8]>
    ensures some { IfSome result (λ nonce. (challenge : ServerFirstParts)
        × IsAnswered salt.now count client.now server_first.now challenge × (nonce.now ≡ challenge.nonce)) }
    ensures none { IfNone result ((challenge : ServerFirstParts)
        → IsAnswered salt.now count client.now server_first.now challenge → ⊥) }
{
    let Ok(challenge) = read_server_first(server_first) else {
        return None;
    };
    if challenge.mandatory {
        return None;
    }
    if extends_nonce(challenge.nonce, client)
        && are_same(challenge.salt.bytes(), salt)
        && challenge.count == count
    {
        Some(challenge.nonce)
    } else {
        None
    }
}

// The nonce of a challenge without extensions to the client's nonce, or None if the text has another form.
fn usual_nonce<'a>(
    salt: &[u8],
    count: u32,
    client: &[u8],
    server_first: &'a [u8],
) -> Option<&'a [u8]>
    ensures { IfSome result (λ nonce. IsAnswered salt.now count client.now server_first.now
        (server_first_of nonce.now salt.now count [])) }
{
    if salt.is_empty() || MAX_SALT_LEN < salt.len() || count == 0 {
        return None;
    }
    // For the proof: the elements of the salt are bytes.
    law_of_bytes(salt);
    let rest = after(server_first, b"r=")?;
    let nonce = before(rest, tail(salt, count).as_slice())?;
    if extends_nonce(nonce, client) && is_nonce(nonce) {
        Some(nonce)
    } else {
        None
    }
}

// What follows this front in a text, or None if the text has another.
fn after<'a>(text: &'a [u8], front: &[u8]) -> Option<&'a [u8]>
    ensures { IfSome result (λ rest. text.now ≡ front.now ++ rest.now) }
{
    text.strip_prefix(front)
}

// What comes before this end in a text, or None if the text has another.
fn before<'a>(text: &'a [u8], end: &[u8]) -> Option<&'a [u8]>
    ensures { IfSome result (λ rest. text.now ≡ rest.now ++ end.now) }
{
    text.strip_suffix(end)
}

// What follows the nonce in a challenge without extensions.
fn tail(salt: &[u8], count: u32) -> ArrayVec<u8, MAX_TAIL_LEN>
    requires { length salt.now ≤ 64 }
    ensures { result.items ≡ ((codes ",s=" ++ base64 salt.now) ++ codes ",i=") ++ decimal count }
{
    let mut tail = ArrayVec::new();
    add(&mut tail, b",s=");
    add_base64(&mut tail, salt);
    add(&mut tail, b",i=");
    add(&mut tail, Buffer::new().format(count).as_bytes());
    tail
}

// Whether these are 1 to 512 printable characters.
fn is_nonce(bytes: &[u8]) -> bool
    ensures { IsTrue result ↔ IsNonce max_nonce_len bytes.now }
{
    are_printable(bytes) && !bytes.is_empty() && bytes.len() <= MAX_NONCE_LEN
}

// Whether each byte is printable.
fn are_printable(bytes: &[u8]) -> bool
    ensures { result ≡ list_all is_printable bytes.now }
{
    bytes
        .iter()
        .all(|byte| (0x21..=0x7E).contains(byte) && *byte != b',')
}

/// The text before the proof and the proof of a client-final message that has this gs2-header, this nonce and no extensions, or None
/// if the text has another form, or the header is longer than 64 bytes.
pub(crate) fn usual_final<'a>(
    header: &[u8],
    nonce: &[u8],
    client_final: &'a [u8],
) -> Option<(&'a [u8], Tag)>
    requires { IsNonce max_nonce_len nonce.now }
    ensures is { IfSome result (λ found. IsClientFinal client_final.now (client_final_of header.now nonce.now [] found.1.items)) }
    ensures front { IfSome result (λ found. found.0.now
        ≡ client_final_without_proof (client_final_of header.now nonce.now [] found.1.items)) }
{
    if header.is_empty() || MAX_USUAL_HEADER_LEN < header.len() {
        return None;
    }
    // For the proof: the elements of the header are bytes.
    law_of_bytes(header);
    let front = front(header);
    let rest = after(client_final, front.as_slice())?;
    let rest = after(rest, nonce)?;
    let proof = tag_of(after(rest, b",p=")?)?;
    Some((&client_final[..front.len() + nonce.len()], proof))
}

// What is before the nonce in a client-final message.
fn front(header: &[u8]) -> ArrayVec<u8, MAX_FRONT_LEN>
    requires { length header.now ≤ 64 }
    ensures { result.items ≡ (codes "c=" ++ base64 header.now) ++ codes ",r=" }
{
    let mut front = ArrayVec::new();
    add(&mut front, b"c=");
    add_base64(&mut front, header);
    add(&mut front, b",r=");
    front
}

// Adds the base64 of up to 64 bytes.
fn add_base64<const N: usize>(text: &mut ArrayVec<u8, N>, bytes: &[u8])
    requires most { length bytes.now ≤ 64 }
    requires room { length text.old.items + 88 ≤ N }
    ensures value { text.new.items ≡ text.old.items ++ base64 bytes.now }
    ensures len { length text.new.items ≤ length text.old.items + 88 }
{
    let mut buffer = [0; MAX_BASE64_LEN];
    let Ok(size) = STANDARD.encode_slice(bytes, &mut buffer) else {
        unreachable!()
    };
    add(text, &buffer[..size]);
}

// The 1 to 64 bytes whose base64 this is, or None.
fn tag_of(text: &[u8]) -> Option<Tag>
    ensures field { IfSome result (λ tag. IsField max_tag_len tag.items) }
    ensures spelled { IfSome result (λ tag. text.now ≡ base64 tag.items) }
{
    if MAX_BASE64_LEN < text.len() {
        return None;
    }
    let mut buffer = [0; 66];
    let size = decode(text, &mut buffer)?;
    Some(copy_of(&buffer[..size]))
}

// Decodes the base64 of 1 to 64 bytes to the front of `buffer` and returns how many they are, or None if the text is none.
fn decode(text: &[u8], buffer: &mut [u8]) -> Option<usize>
    requires { decoded_estimate (length text.now) ≤ length buffer.old }
    ensures field { IfSome result (λ size. IsField max_tag_len (take size buffer.new)) }
    ensures spelled { IfSome result (λ size. text.now ≡ base64 (take size buffer.new)) }
    ensures size { IfSome result (λ size. (size ≤ length buffer.old) × (size ≤ max_tag_len)) }
{
    let Ok(size) = STANDARD.decode_slice_unchecked(text, buffer) else {
        return None;
    };
    if size == 0 || MAX_TAG_LEN < size {
        return None;
    }
    Some(size)
}
