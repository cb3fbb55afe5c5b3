//! Reads the parts whose values are decoded or have a class of their own. Each is known by its letter. A function that reads a part
//! returns None for any other part.
ghost use Rattle.std.specs.Prelude.{◌≡◌, ◌≤◌, ◌+◌, ◌*◌, ◌/◌, ◌∷◌, ◌++◌, length, take, decimal, codes, IfNone, IfSome, IsTrue, ◌↔◌};
ghost use Rattle.std.specs.Str.{byte};
ghost use Rattle.base64.specs.Decode.{decoded_estimate};
ghost use Rattle.scram_text.specs.Limits.{max_channel_len, max_salt_len, max_tag_len};
ghost use Rattle.scram_text.specs.Class.{IsNonce};
ghost use Rattle.scram_text.specs.Name.{IsSaslName, LacksComma};
ghost use Rattle.scram_text.specs.Base64Field.{base64, IsField};
ghost use Rattle.scram_text.specs.Parts.{IsAttrVal, IsValue, IsCount, SpellsCount, SpellsField};

use crate::name::SaslText;
use crate::number::from_decimal;
use crate::values::Salt;
use crate::{MAX_CHANNEL_LEN, MAX_ITERATION_COUNT, MAX_TAG_LEN, class, cut};
use arrayvec::ArrayVec;
use base64::engine::general_purpose::STANDARD;
use mac_core::Tag;

/// The nonce of a part that is `r=` and 1 to `most` printable characters.
pub(crate) fn nonce_of(part: &[u8], most: usize) -> Option<&[u8]>
    ensures none { IfNone result (IsAttrVal (byte "r") (IsNonce most) part.now → ⊥) }
    ensures spelled { IfSome result (λ nonce. part.now ≡ codes "r=" ++ nonce.now) }
    ensures class { IfSome result (λ nonce. IsNonce most nonce.now) }
{
    let nonce = cut::value_named(part, b'r')?;
    if class::is_nonce(nonce, most) {
        Some(nonce)
    } else {
        None
    }
}

/// The name of a part that is `n=` or `a=` and a saslname.
pub(crate) fn name_of(part: &[u8], letter: u8) -> Option<SaslText<'_>>
    ensures none { IfNone result (IsAttrVal letter IsSaslName part.now → ⊥) }
    ensures spelled { IfSome result (λ name. part.now ≡ letter ∷ byte "=" ∷ name) }
    ensures class { IfSome result (λ name. IsSaslName name) }
{
    let spelled = cut::value_named(part, letter)?;
    SaslText::new(spelled)
}

/// The value of a part of a text that is `m=` or `e=` and one or more value-chars.
pub(crate) fn value_of(part: &[u8], letter: u8) -> Option<&[u8]>
    requires { LacksComma part.now }
    ensures none { IfNone result (IsAttrVal letter IsValue part.now → ⊥) }
    ensures spelled { IfSome result (λ value. part.now ≡ letter ∷ byte "=" ∷ value.now) }
    ensures class { IfSome result (λ value. IsValue value.now) }
{
    let value = cut::value_named(part, letter)?;
    if value.is_empty() { None } else { Some(value) }
}

/// Whether this is one or more value-chars, given that it is known to be UTF-8 without a NUL.
pub(crate) fn is_value(value: &[u8]) -> bool
    ensures { IsTrue result ↔ IsValue value.now }
{
    class::lacks_comma(value) && !value.is_empty()
}

/// Whether the number is from 1 to 4294967295.
pub(crate) fn is_count(count: u32) -> bool
    ensures { IsTrue result ↔ IsCount count }
{
    count > 0
}

/// The count of a part that is `i=` and a number from 1 to 4294967295.
pub(crate) fn count_of(part: &[u8]) -> Option<u32>
    ensures none { IfNone result (IsAttrVal (byte "i") SpellsCount part.now → ⊥) }
    ensures spelled { IfSome result (λ count. part.now ≡ codes "i=" ++ decimal count) }
    ensures class { IfSome result (λ count. IsCount count) }
{
    let digits = cut::value_named(part, b'i')?;
    count(digits)
}

// The count that the digits spell, or None if they spell no number from 1 to 4294967295.
fn count(digits: &[u8]) -> Option<u32>
    ensures none { IfNone result (SpellsCount digits.now → ⊥) }
    ensures spelled { IfSome result (λ count. digits.now ≡ decimal count) }
    ensures class { IfSome result (λ count. IsCount count) }
{
    let Some(number) = from_decimal(digits) else {
        return None;
    };
    if number < 1 || u64::from(MAX_ITERATION_COUNT) < number {
        return None;
    }
    Some(number as u32)
}

/// The bytes of a part that is `c=` and the base64 of 1 to 1536 bytes.
pub(crate) fn channel_of(part: &[u8]) -> Option<ArrayVec<u8, MAX_CHANNEL_LEN>>
    ensures none { IfNone result (IsAttrVal (byte "c") (SpellsField max_channel_len) part.now → ⊥) }
    ensures spelled { IfSome result (λ channel. part.now ≡ codes "c=" ++ base64 channel.items) }
    ensures class { IfSome result (λ channel. IsField max_channel_len channel.items) }
{
    let text = cut::value_named(part, b'c')?;
    bytes_of::<MAX_CHANNEL_LEN, MAX_CHANNEL_LEN>(text)
}

// As many bytes as the base64 of a `Tag` decodes to if those of its padding count too.
const SHORT_FIELD_ROOM: usize = (MAX_TAG_LEN + 2) / 3 * 3;

/// The bytes of a part that is a letter, `=` and the base64 of 1 to 64 bytes.
pub(crate) fn short_bytes_of(part: &[u8], letter: u8) -> Option<Tag>
    ensures none { IfNone result (IsAttrVal letter (SpellsField max_tag_len) part.now → ⊥) }
    ensures spelled { IfSome result (λ tag. part.now ≡ letter ∷ byte "=" ∷ base64 tag.items) }
    ensures class { IfSome result (λ tag. IsField max_tag_len tag.items) }
{
    let text = cut::value_named(part, letter)?;
    bytes_of::<MAX_TAG_LEN, SHORT_FIELD_ROOM>(text)
}

/// The salt of a part that is `s=` and the base64 of 1 to 64 bytes.
pub(crate) fn salt_of(part: &[u8]) -> Option<Salt>
    ensures none { IfNone result (IsAttrVal (byte "s") (SpellsField max_salt_len) part.now → ⊥) }
    ensures spelled { IfSome result (λ salt. part.now ≡ codes "s=" ++ base64 salt) }
    ensures class { IfSome result (λ salt. IsField max_salt_len salt) }
{
    let bytes = short_bytes_of(part, b's')?;
    Salt::new(bytes.as_slice())
}

// The 1 to `MOST` bytes whose base64 this is, or None if it is that of no such bytes. `ROOM` bytes hold whatever a text as long as the
// base64 of `MOST` bytes decodes to, and a longer text is refused.
#[tactic(auto, using(crate::proofs::lemmas::Base64::field_has_its_length))]
fn bytes_of<const MOST: usize, const ROOM: usize>(text: &[u8]) -> Option<ArrayVec<u8, MOST>>
    requires room { (MOST + 2) / 3 * 3 ≤ ROOM }
    requires most { ROOM ≤ max_channel_len }
    ensures none { IfNone result (SpellsField MOST text.now → ⊥) }
    ensures spelled { IfSome result (λ field. text.now ≡ base64 field.items) }
    ensures class { IfSome result (λ field. IsField MOST field.items) }
{
    if text.len() > (MOST + 2) / 3 * 4 {
        return None;
    }
    let mut buffer = [0; ROOM];
    let size = decode(text, &mut buffer)?;
    let Ok(field) = ArrayVec::try_from(&buffer[..size]) else {
        return None;
    };
    Some(field)
}

/// Whether these are 1 to `most` bytes, which a base64 field may hold.
pub(crate) fn is_field(bytes: &[u8], most: usize) -> bool
    ensures { IsTrue result ↔ IsField most bytes.now }
{
    !bytes.is_empty() && bytes.len() <= most
}

// Decodes the base64 text to the front of `buffer` and returns the number of bytes, or None if the text is not the base64 of at
// least one byte and at most as many as `buffer` has.
fn decode(text: &[u8], buffer: &mut [u8]) -> Option<usize>
    requires { decoded_estimate (length text.now) ≤ length buffer.old }
    ensures none { IfNone result (SpellsField (length buffer.old) text.now → ⊥) }
    ensures field { IfSome result (λ size. IsField (length buffer.old) (take size buffer.new)) }
    ensures text { IfSome result (λ size. text.now ≡ base64 (take size buffer.new)) }
    ensures size { IfSome result (λ size. size ≤ length buffer.old) }
{
    match STANDARD.decode_slice_unchecked(text, buffer) {
        Ok(0) => None,
        Ok(size) => Some(size),
        Err(_) => None,
    }
}
