//! The client's final message (RFC 5802, section 7):
//!
//! ```text
//! client-final-message-without-proof = channel-binding "," nonce ["," extensions]
//! client-final-message = client-final-message-without-proof "," proof
//! ```
//!
//! For example: `c=biws,r=abcdef,p=v0X8v3Bz2T0CJGbJQyF0X+HI4Ts=`. The last part is the proof, even if an extension is named `p`.
ghost use Rattle.std.specs.Prelude.{◌≡◌, ◌≤◌, ◌<◌, ◌+◌, ◌↔◌, ℕ, List, [], ◌++◌, length, IsTrue, IfOk, IfErr, OnOk, IsOkAnd, IsErrOf};
ghost use Rattle.scram_text.specs.Limits.{max_message_len, max_tag_len};
ghost use Rattle.scram_text.specs.Class.{IsUtf8Text};
ghost use Rattle.scram_text.specs.Base64Field.{IsField};
ghost use Rattle.scram_text.specs.Messages.{ClientFinalParts, client_final_without_proof, client_final_text, IsClientFinal};
ghost use Rattle.scram_text.specs.Draft.{IsDraftOf};
ghost use Rattle.scram_text.specs.Written.{client_final_of, CanBeClientFinal, CanBeClientFinalWithoutProof, IsClientFinalWithoutProof};
ghost use Rattle.scram_text.specs.Written.{IsMessageWritten};
ghost use Rattle.scram_text.specs.Faults.{IsClientFinalFault};
ghost use Rattle.scram_text.specs.Shown.{ShowsClientFinal};
ghost use Rattle.scram_text.specs.inner.Pieces.{IsCutClientFinal};
ghost use Rattle.scram_text.specs.Appended.{LeavesOnErr, LacksRoom};

use crate::draft::{MAX_SHORT_BASE64_LEN, MessageDraft};
use crate::fault::{TextFault, TextWhy, WriteFault};
use crate::{MAX_CHANNEL_LEN, MAX_MESSAGE_LEN, MAX_NONCE_LEN, MAX_TAG_LEN, class, cut, field};
use arrayvec::ArrayVec;
use mac_core::Tag;
use std::alloc::Allocator;

/// A client-final message that was read. Its slices are parts of the message.
#[derive(Drop)]
pub struct ClientFinal<'a> {
    /// The text before the comma of the last part: client-final-message-without-proof.
    pub without_proof: &'a [u8],

    /// Whether an extension is named `m`: if so, the login has to fail.
    pub mandatory: bool,

    /// The bytes of the channel field, 1 to 1536.
    pub channel: ArrayVec<u8, MAX_CHANNEL_LEN>,

    /// The nonce, 1 to 512 printable characters.
    pub nonce: &'a [u8],

    /// The extensions: attr-vals with commas between them, or empty.
    pub extensions: &'a [u8],

    /// The bytes of the proof, 1 to 64.
    pub proof: Tag,
}

/// Reads a client-final message (RFC 5802, section 7). It does not allocate. Errors: the first of these that applies:
/// - 1 TooLong or 2 NotText for the whole text;
/// - 3 Missing if it has too few parts;
/// - the fault of the first part from the left that does not have its form: 11 Channel, 8 Nonce, 12 Extension or 13 Proof.
pub fn read_client_final(message: &[u8]) -> Result<ClientFinal<'_>, TextFault>
    // The text is a message with the parts that are returned.
    ensures found { IfOk result (λ m. (p : ClientFinalParts) × IsClientFinal message.now p
        × ShowsClientFinal m p) }
    // If the text is a message, its parts are returned.
    ensures every { (p : ClientFinalParts) → IsClientFinal message.now p
        → IsOkAnd result (λ m. ShowsClientFinal m p) }
    ensures fault { IfErr result (λ f. IsClientFinalFault message.now f) }
{
    read_parts(message)
}

// As the public reader, but without `every`: it follows from `found` and `fault`, since a text has one list of parts.
fn read_parts(message: &[u8]) -> Result<ClientFinal<'_>, TextFault>
    ensures found { IfOk result (λ m. (p : ClientFinalParts) × IsClientFinal message.now p
        × ShowsClientFinal m p) }
    ensures fault { IfErr result (λ f. IsClientFinalFault message.now f) }
{
    let pieces = pieces_of(message)?;
    let Some(channel) = field::channel_of(pieces.channel) else {
        return Err(TextFault {
            part: 0,
            why: TextWhy::Channel,
        });
    };
    let Some(nonce) = field::nonce_of(pieces.nonce, MAX_NONCE_LEN) else {
        return Err(TextFault {
            part: 1,
            why: TextWhy::Nonce,
        });
    };
    let extensions = cut::extensions_of(pieces.rest, 2)?;
    let Some(proof) = field::short_bytes_of(pieces.proof, b'p') else {
        return Err(TextFault {
            part: pieces.parts - 1,
            why: TextWhy::Proof,
        });
    };
    Ok(ClientFinal {
        without_proof: pieces.without_proof,
        mandatory: extensions.mandatory,
        channel,
        nonce,
        extensions: extensions.text,
        proof,
    })
}

// The parts of a text that has at least three: the first two, the last, and the ones between.
#[derive(Drop)]
struct Pieces<'a> {
    parts: usize,
    without_proof: &'a [u8],
    channel: &'a [u8],
    nonce: &'a [u8],
    rest: Option<&'a [u8]>,
    proof: &'a [u8],
}

// Cuts a message into these parts. Errors: 1 TooLong, 2 NotText, or 3 Missing if it has fewer than three parts.
fn pieces_of(message: &[u8]) -> Result<Pieces<'_>, TextFault>
    ensures cut { IfOk result (λ pieces. IsCutClientFinal message.now pieces) }
    ensures fault { IfErr result (λ f. IsClientFinalFault message.now f) }
{
    let parts = cut::checked_part_count(message)?;
    if parts < 3 {
        return Err(TextFault {
            part: parts,
            why: TextWhy::Missing,
        });
    }
    let Some((without_proof, proof)) = cut::cut_last(message) else {
        unreachable!()
    };
    let (channel, rest) = cut::cut(without_proof);
    let Some(rest) = rest else { unreachable!() };
    let (nonce, rest) = cut::cut(rest);
    Ok(Pieces {
        parts,
        without_proof,
        channel,
        nonce,
        rest,
        proof,
    })
}

/// A client-final message before its proof (RFC 5802, section 7): client-final-message-without-proof, for a client to sign and then
/// to write with its proof.
///
/// It does not keep its parts, so its contracts say which parts it stands for.
#[derive(Drop)]
pub struct ClientFinalWithoutProof {
    text: ArrayVec<u8, MAX_MESSAGE_LEN>,
}

impl ClientFinalWithoutProof {
    /// Composes the text: the channel field of 1 to 1536 bytes, the nonce of 1 to 512 printable characters, and the extensions,
    /// which are attr-vals with commas between them, or empty. It does not allocate. Errors: 16 Unwritable if an argument is
    /// outside its class, else 17 OverLimit if the text would have more than 2048 bytes.
    pub fn new(
        channel: &[u8],
        nonce: &[u8],
        extensions: &[u8],
    ) -> Result<ClientFinalWithoutProof, WriteFault>
        ensures ok { IfOk result (λ w. (proof : List ℕ)
            → IsClientFinalWithoutProof w (client_final_of channel.now nonce.now extensions.now proof)) }
        // On Ok the arguments are in their classes.
        ensures class { OnOk result (CanBeClientFinalWithoutProof channel.now nonce.now extensions.now) }
        ensures unwritable { IsErrOf result WriteFault.Unwritable
            → CanBeClientFinalWithoutProof channel.now nonce.now extensions.now → ⊥ }
        ensures over_limit { IsErrOf result WriteFault.OverLimit
            → CanBeClientFinalWithoutProof channel.now nonce.now extensions.now
            × (max_message_len < length (client_final_without_proof (client_final_of channel.now nonce.now extensions.now []))) }
        ensures no_memory { IsErrOf result WriteFault.NoMemory → ⊥ }
    {
        if !is_writable(channel, nonce, extensions) {
            return Err(WriteFault::Unwritable);
        }
        let text = draft_of(channel, nonce, extensions).finish()?;
        Ok(ClientFinalWithoutProof { text })
    }

    /// The text, which a client signs.
    pub fn as_slice(&self) -> &[u8]
        ensures { (p : ClientFinalParts) → IsClientFinalWithoutProof self.now p
            → result.now ≡ client_final_without_proof p }
    {
        self.text.as_slice()
    }

    /// Appends the client-final message to `out`: the text, and the proof of 1 to 64 bytes. Errors: 16 Unwritable if the proof is
    /// outside its class, else 17 OverLimit if the message would have more than 2048 bytes, else 99 NoMemory, only if `out` had no
    /// room reserved for the message. After an error `out` is unchanged.
    pub fn write_with_proof<A: Allocator>(
        self,
        proof: &Tag,
        out: &mut Vec<u8, A>,
    ) -> Result<(), WriteFault>
        ensures ok { (p : ClientFinalParts) → IsClientFinalWithoutProof self p → p.proof ≡ proof.now.items
            → OnOk result (out.new.items ≡ out.old.items ++ client_final_text p) }
        ensures is_message { (p : ClientFinalParts) → IsClientFinalWithoutProof self p → p.proof ≡ proof.now.items
            → OnOk result (IsClientFinal (client_final_text p) p) }
        ensures leaves { LeavesOnErr result out.old out.new }
        ensures unwritable { IsErrOf result WriteFault.Unwritable → IsField max_tag_len proof.now.items → ⊥ }
        ensures over_limit { IsErrOf result WriteFault.OverLimit → IsField max_tag_len proof.now.items
            × ((p : ClientFinalParts) → IsClientFinalWithoutProof self p → p.proof ≡ proof.now.items
            → max_message_len < length (client_final_text p)) }
        ensures no_memory { IsErrOf result WriteFault.NoMemory
            → (p : ClientFinalParts) → IsClientFinalWithoutProof self p → p.proof ≡ proof.now.items
            → IsClientFinal (client_final_text p) p
            × LacksRoom out.old (client_final_text p) }
    {
        let proof = proof.as_slice();
        if !field::is_field(proof, MAX_TAG_LEN) {
            return Err(WriteFault::Unwritable);
        }
        self.with_proof(proof).append_to(out)
    }

    // The whole message: the text, `,p=` and the base64 of the proof.
    fn with_proof(self, proof: &[u8]) -> MessageDraft
        requires { IsField max_tag_len proof.now }
        ensures draft { (p : ClientFinalParts) → IsClientFinalWithoutProof self p → p.proof ≡ proof.now
            → IsDraftOf result (client_final_text p) }
        ensures is_message { (p : ClientFinalParts) → IsClientFinalWithoutProof self p → p.proof ≡ proof.now
            → length (client_final_text p) ≤ max_message_len → IsClientFinal (client_final_text p) p }
    {
        let mut draft = MessageDraft::of(self.text);
        draft.add(b",p=");
        draft.add_base64::<MAX_SHORT_BASE64_LEN>(proof);
        draft
    }
}

// Whether each argument is in its class.
fn is_writable(channel: &[u8], nonce: &[u8], extensions: &[u8]) -> bool
    ensures { IsTrue result ↔ CanBeClientFinalWithoutProof channel.now nonce.now extensions.now }
{
    field::is_field(channel, MAX_CHANNEL_LEN)
        && class::is_nonce(nonce, MAX_NONCE_LEN)
        && cut::are_extensions(extensions)
}

// client-final-message-without-proof
fn draft_of(channel: &[u8], nonce: &[u8], extensions: &[u8]) -> MessageDraft
    requires { CanBeClientFinalWithoutProof channel.now nonce.now extensions.now }
    ensures draft { (proof : List ℕ) → IsDraftOf result
        (client_final_without_proof (client_final_of channel.now nonce.now extensions.now proof)) }
    ensures utf8_text { (proof : List ℕ)
        → IsUtf8Text (client_final_without_proof (client_final_of channel.now nonce.now extensions.now proof)) }
{
    let mut draft = MessageDraft::new();
    draft.add(b"c=");
    draft.add_base64::<MAX_MESSAGE_LEN>(channel);
    draft.add(b",r=");
    draft.add(nonce);
    draft.add_extensions(extensions);
    draft
}

/// Appends a client-final message (RFC 5802, section 7) to `out`: the channel field of 1 to 1536 bytes, the nonce of 1 to 512
/// printable characters, the extensions, which are attr-vals with commas between them, or empty, and the proof of 1 to 64 bytes.
/// Errors: 16 Unwritable if an argument is outside its class, else 17 OverLimit if the message would have more than 2048 bytes,
/// else 99 NoMemory, only if `out` had no room reserved for the message. After an error `out` is unchanged.
#[tactic(auto, using(crate::proofs::lemmas::messages_composed::ClientFinal::with_proof_is_no_shorter))]
pub fn write_client_final<A: Allocator>(
    channel: &[u8],
    nonce: &[u8],
    extensions: &[u8],
    proof: &Tag,
    out: &mut Vec<u8, A>,
) -> Result<(), WriteFault>
    ensures { IsMessageWritten result out.old out.new client_final_text IsClientFinal
        (client_final_of channel.now nonce.now extensions.now proof.now.items)
        (CanBeClientFinal channel.now nonce.now extensions.now proof.now.items) }
{
    if !field::is_field(proof.as_slice(), MAX_TAG_LEN) {
        return Err(WriteFault::Unwritable);
    }
    let without_proof = ClientFinalWithoutProof::new(channel, nonce, extensions)?;
    without_proof.write_with_proof(proof, out)
}
