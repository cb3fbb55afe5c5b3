//! Writes the server's two messages. Their fields are within the limits and no signature is empty, so the only fault is that there is
//! no memory for them.
ghost use Rattle.std.specs.Prelude.{◌≤◌, [], length};
ghost use Rattle.scram_text.specs.Limits.{max_nonce_len, max_tag_len};
ghost use Rattle.scram_text.specs.Class.{IsNonce};
ghost use Rattle.scram_text.specs.Messages.{server_first_text, IsServerFirst, server_final_text, IsServerFinal};
ghost use Rattle.scram_text.specs.Written.{server_first_of};
ghost use Rattle.scram_ends.specs.Verdict.{accept, refuse, CanBeReported, due_of, final_due};
ghost use Rattle.scram_ends.specs.inner.Written.{IsWrittenUnlessFull};

use crate::verdict::{Judged, Refusal};
use mac_core::{copy_of, law_of_bytes};
use scram_text::{FinalResult, Salt, WriteFault, write_server_final, write_server_first};
use std::alloc::Allocator;

/// Appends the challenge with this nonce, salt and count.
pub(crate) fn write_challenge<A: Allocator>(
    nonce: &[u8],
    salt: &Salt,
    count: u32,
    out: &mut Vec<u8, A>,
) -> Result<(), WriteFault>
    requires nonce { IsNonce max_nonce_len nonce.now }
    requires count { 1 ≤ count }
    ensures { IsWrittenUnlessFull result out.old out.new server_first_text IsServerFirst
        (server_first_of nonce.now salt.now count []) }
{
    // For the proof: a salt's elements are bytes, so it fits its field, and the writer has no other fault.
    law_of_bytes(salt.bytes());
    write_server_first(nonce, salt, count, b"", out)
}

/// Appends the server's final message that reports this verdict.
pub(crate) fn write_judgement<A: Allocator>(
    judged: &Judged,
    out: &mut Vec<u8, A>,
) -> Result<(), WriteFault>
    requires { CanBeReported (due_of judged.now) }
    ensures { IsWrittenUnlessFull result out.old out.new server_final_text IsServerFinal (final_due (due_of judged.now)) }
{
    match judged {
        Judged::Accepted(signature) => write_signature(signature.as_slice(), out),
        Judged::Refused(refusal) => write_refusal(*refusal, out),
    }
}

// Appends the server-final message whose verifier is this signature.
fn write_signature<A: Allocator>(signature: &[u8], out: &mut Vec<u8, A>) -> Result<(), WriteFault>
    requires some { 1 ≤ length signature.now }
    requires most { length signature.now ≤ max_tag_len }
    ensures { IsWrittenUnlessFull result out.old out.new server_final_text IsServerFinal (final_due (accept signature.now)) }
{
    write_server_final(FinalResult::Verifier(copy_of(signature)), b"", out)
}

// Appends the server-final message with the error value of this refusal.
fn write_refusal<A: Allocator>(refusal: Refusal, out: &mut Vec<u8, A>) -> Result<(), WriteFault>
    ensures { IsWrittenUnlessFull result out.old out.new server_final_text IsServerFinal (final_due (refuse refusal)) }
{
    let value = refusal.error_value().as_bytes();
    write_server_final(FinalResult::ErrorValue(value), b"", out)
}
