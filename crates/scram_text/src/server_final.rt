//! The server's final message (RFC 5802, section 7):
//!
//! ```text
//! server-final-message = (server-error / verifier) ["," extensions]
//! ```
//!
//! For example: `v=rmF9pqV8S7suAoZWja4dJRkFsKQ=` or `e=invalid-proof`.
ghost use Rattle.std.specs.Prelude.{◌≡◌, ◌≤◌, ◌+◌, ◌↔◌, ◌++◌, length, codes, IsTrue, IfOk, IfErr, IsOkAnd};
ghost use Rattle.scram_text.specs.Limits.{max_message_len, max_nonce_len, max_tag_len};
ghost use Rattle.scram_text.specs.Class.{IsUtf8Text};
ghost use Rattle.scram_text.specs.Name.{LacksComma};
ghost use Rattle.scram_text.specs.Base64Field.{base64};
ghost use Rattle.scram_text.specs.Messages.{ServerFinalParts, IsServerFinal, IsVerifierOrError, verifier_or_error_text, server_final_text};
ghost use Rattle.scram_text.specs.Faults.{IsServerFinalFault, Fits, fault, verifier_or_error_place};
ghost use Rattle.scram_text.specs.Shown.{ShowsServerFinal, verifier_or_error_of};
ghost use Rattle.scram_text.specs.Draft.{IsDraftOf};
ghost use Rattle.scram_text.specs.Written.{server_final_of, CanBeVerifierOrError, CanBeServerFinal, IsMessageWritten};

use crate::draft::{MAX_SHORT_BASE64_LEN, MessageDraft};
use crate::fault::{TextFault, TextWhy, WriteFault};
use crate::{MAX_TAG_LEN, class, cut, field};
use mac_core::Tag;
use std::alloc::Allocator;

/// The verifier (`v=`) or the error (`e=`) of the server's final message (RFC 5802, section 7).
#[derive(Drop)]
pub enum FinalResult<'a> {
    /// The bytes of the verifier `v=`, 1 to 64: the server's signature.
    Verifier(Tag),

    /// The value of `e=`: why the login failed.
    ErrorValue(&'a [u8]),
}

/// A server-final message that was read. Its slices are parts of the message.
#[derive(Drop)]
pub struct ServerFinal<'a> {
    /// Whether an extension is named `m`: if so, the login has to fail.
    pub mandatory: bool,

    /// The verifier or the error.
    pub result: FinalResult<'a>,

    /// The extensions: attr-vals with commas between them, or empty.
    pub extensions: &'a [u8],
}

/// Reads a server-final message (RFC 5802, section 7). It does not allocate. Errors: the first of these that applies:
/// - 1 TooLong or 2 NotText for the whole text;
/// - the fault of the first part from the left that does not have its form: for part 0, 15 ErrorValue if it begins with `e=`,
///   else 14 Verifier; for a later part, 12 Extension.
pub fn read_server_final(message: &[u8]) -> Result<ServerFinal<'_>, TextFault>
    // The text is a message with the parts that are returned.
    ensures found { IfOk result (λ m. (p : ServerFinalParts) × IsServerFinal message.now p
        × ShowsServerFinal m p) }
    // If the text is a message, its parts are returned.
    ensures every { (p : ServerFinalParts) → IsServerFinal message.now p
        → IsOkAnd result (λ m. ShowsServerFinal m p) }
    ensures fault { IfErr result (λ f. IsServerFinalFault message.now f) }
{
    read_parts(message)
}

// As the public reader, but without `every`: it follows from `found` and `fault`, since a text has one list of parts.
fn read_parts(message: &[u8]) -> Result<ServerFinal<'_>, TextFault>
    ensures found { IfOk result (λ m. (p : ServerFinalParts) × IsServerFinal message.now p
        × ShowsServerFinal m p) }
    ensures fault { IfErr result (λ f. IsServerFinalFault message.now f) }
{
    cut::checked_part_count(message)?;
    let (first, rest) = cut::cut(message);
    let result = read_verifier_or_error(first)?;
    let extensions = cut::extensions_of(rest, 1)?;
    Ok(ServerFinal {
        mandatory: extensions.mandatory,
        result,
        extensions: extensions.text,
    })
}

// The verifier or the error in the first part: an error if it begins with `e=`.
fn read_verifier_or_error(part: &[u8]) -> Result<FinalResult<'_>, TextFault>
    requires { LacksComma part.now }
    ensures spelled { IfOk result (λ r. part.now ≡ verifier_or_error_text (verifier_or_error_of r)) }
    ensures class { IfOk result (λ r. IsVerifierOrError (verifier_or_error_of r)) }
    ensures fault { IfErr result (λ f. (Fits max_nonce_len (verifier_or_error_place part.now) part.now → ⊥) × (f
        ≡ fault 0 (verifier_or_error_place part.now))) }
{
    if cut::is_named(part, b'e') {
        match field::value_of(part, b'e') {
            Some(value) => Ok(FinalResult::ErrorValue(value)),
            None => Err(TextFault {
                part: 0,
                why: TextWhy::ErrorValue,
            }),
        }
    } else {
        match field::short_bytes_of(part, b'v') {
            Some(signature) => Ok(FinalResult::Verifier(signature)),
            None => Err(TextFault {
                part: 0,
                why: TextWhy::Verifier,
            }),
        }
    }
}

/// Appends a server-final message (RFC 5802, section 7) to `out`: the verifier of 1 to 64 bytes or the error value of one or more
/// value-chars, and the extensions, which are attr-vals with commas between them, or empty. Errors: 16 Unwritable if an argument is
/// outside its class, else 17 OverLimit if the message would have more than 2048 bytes, else 99 NoMemory, only if `out` had no room
/// reserved for the message. After an error `out` is unchanged.
pub fn write_server_final<A: Allocator>(
    final_result: FinalResult<'_>,
    extensions: &[u8],
    out: &mut Vec<u8, A>,
) -> Result<(), WriteFault>
    ensures { IsMessageWritten result out.old out.new server_final_text IsServerFinal
        (server_final_of (verifier_or_error_of final_result.entry) extensions.now)
        (CanBeServerFinal (verifier_or_error_of final_result.entry) extensions.now) }
{
    if !is_writable(&final_result) || !cut::are_extensions(extensions) {
        return Err(WriteFault::Unwritable);
    }
    draft_of(&final_result, extensions).append_to(out)
}

// Whether the verifier has 1 to 64 bytes, or the error value is UTF-8 and one or more value-chars.
fn is_writable(final_result: &FinalResult<'_>) -> bool
    ensures { IsTrue result ↔ CanBeVerifierOrError (verifier_or_error_of final_result.now) }
{
    match final_result {
        FinalResult::Verifier(signature) => field::is_field(signature.as_slice(), MAX_TAG_LEN),
        FinalResult::ErrorValue(value) => field::is_value(value) && class::is_utf8_text(value),
    }
}

// The whole message.
fn draft_of(final_result: &FinalResult<'_>, extensions: &[u8]) -> MessageDraft
    requires { CanBeServerFinal (verifier_or_error_of final_result.now) extensions.now }
    ensures draft { IsDraftOf result (server_final_text (server_final_of (verifier_or_error_of final_result.now) extensions.now)) }
    ensures is_message { let p = server_final_of (verifier_or_error_of final_result.now) extensions.now in
        length (server_final_text p) ≤ max_message_len → IsServerFinal (server_final_text p) p }
{
    let mut draft = verifier_or_error_draft(final_result);
    draft.add_extensions(extensions);
    draft
}

// The first part: the verifier or the error.
fn verifier_or_error_draft(final_result: &FinalResult<'_>) -> MessageDraft
    requires { CanBeVerifierOrError (verifier_or_error_of final_result.now) }
    ensures draft { IsDraftOf result (verifier_or_error_text (verifier_or_error_of final_result.now)) }
    ensures utf8_text { IsUtf8Text (verifier_or_error_text (verifier_or_error_of final_result.now)) }
{
    match final_result {
        FinalResult::Verifier(signature) => verifier_draft(signature.as_slice()),
        FinalResult::ErrorValue(value) => error_draft(value),
    }
}

// "v=" base64
fn verifier_draft(signature: &[u8]) -> MessageDraft
    requires { length signature.now ≤ max_tag_len }
    ensures draft { IsDraftOf result (codes "v=" ++ base64 signature.now) }
    ensures utf8_text { IsUtf8Text (codes "v=" ++ base64 signature.now) }
{
    let mut draft = MessageDraft::new();
    draft.add(b"v=");
    draft.add_base64::<MAX_SHORT_BASE64_LEN>(signature);
    draft
}

// "e=" server-error-value
fn error_draft(value: &[u8]) -> MessageDraft
    requires { IsUtf8Text value.now }
    ensures draft { IsDraftOf result (codes "e=" ++ value.now) }
    ensures utf8_text { IsUtf8Text (codes "e=" ++ value.now) }
{
    let mut draft = MessageDraft::new();
    draft.add(b"e=");
    draft.add(value);
    draft
}
