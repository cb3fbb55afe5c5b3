//! The client's first message, for example `n,,n=user,r=fyko+d2lbbFgONRv9qkxdawL`.
ghost use Rattle.std.specs.Prelude.{◌≡◌, ◌≤◌, ◌<◌, ◌+◌, ℕ, List, ◌++◌, length, IfSome, IfOk, IfErr};
ghost use Rattle.std.specs.Option.{option_copied};
ghost use Rattle.std.specs.declared.option.Option.{Option};
ghost use Rattle.scram_text.specs.Class.{IsPlainName, IsNoncePart};
ghost use Rattle.scram_text.specs.Messages.{ClientFirstParts, gs2_header, client_first_bare, client_first_text};
ghost use Rattle.scram_text.specs.Appended.{LeavesOnErr, LacksRoom};
ghost use Rattle.scram_ends.specs.Stages.{started_login};
ghost use Rattle.scram_ends.specs.Honest.{IsHonestFirst, max_honest_first_len};
ghost use Rattle.scram_ends.specs.Client.{StandsForStarted};

use crate::client::{Client, ClientOne, Limits};
use crate::lengths::{MAX_BARE_LEN, MAX_HEADER_LEN};
use arrayvec::ArrayVec;
use mac_core::{Mechanism, copy_of};
use scram_text::{Flag, NoncePart, PlainName, WriteFault, write_header_and_bare};
use std::alloc::Allocator;

impl Client {
    /// Appends the client-first message of this name, name to act as and nonce to `out`, with the flag `n` and no extensions: at
    /// most 1796 bytes. `limits` are the iteration counts that the client will accept, at least 1. Errors:
    /// 99 NoMemory, only if `out` had no room reserved for the message. After an error `out` is unchanged.
    pub fn start<A: Allocator>(
        mechanism: Mechanism,
        name: &PlainName,
        authzid: Option<&PlainName>,
        nonce: &NoncePart,
        limits: Limits,
        out: &mut Vec<u8, A>,
    ) -> Result<ClientOne, WriteFault>
        requires { 1 ≤ limits.least }
        ensures ok { IfOk result (λ client. (client_first : List ℕ)
            × (out.new.items ≡ out.old.items ++ client_first)
            × StandsForStarted client (started_login mechanism limits name.now (option_copied authzid.entry)
            nonce.now client_first)) }
        ensures leaves { LeavesOnErr result out.old out.new }
        ensures most_bytes { length out.new.items ≤ length out.old.items + max_honest_first_len }
        ensures no_memory { IfErr result (λ fault. (fault ≡ WriteFault.NoMemory)
            × ((client_first : List ℕ) × (first : ClientFirstParts)
            × IsHonestFirst name.now (option_copied authzid.entry) nonce.now client_first first
            × LacksRoom out.old client_first)) }
    {
        let start = out.len();
        law_of_names(name, authzid, nonce);
        let header_len = write_header_and_bare(Flag::NoBinding, authzid, name, nonce, b"", out)?;
        let (header, bare) = cut_header(&out[start..], header_len);
        Ok(ClientOne {
            mechanism,
            limits,
            bare,
            header,
            nonce: copy_of(nonce.bytes()),
        })
    }
}

// The gs2-header of an honest client's message, which has this length, and the bare message after it.
fn cut_header(
    message: &[u8],
    header_len: usize,
) -> (ArrayVec<u8, MAX_HEADER_LEN>, ArrayVec<u8, MAX_BARE_LEN>)
    requires { (name : List ℕ) × (authzid : Option (List ℕ)) × (nonce : List ℕ) × (first : ClientFirstParts)
        × IsHonestFirst name authzid nonce message.now first × (header_len ≡ length (gs2_header first)) }
    ensures some { 1 ≤ length result.0.items }
    ensures cut { (first : ClientFirstParts) → message.now ≡ client_first_text first → header_len ≡ length (gs2_header first)
        → (result.0.items ≡ gs2_header first) × (result.1.items ≡ client_first_bare first) }
{
    let (header, bare) = message.split_at(header_len);
    (copy_of(header), copy_of(bare))
}

/// A law: names and nonces are in their classes by their types. Only the proof needs it.
pub(crate) fn law_of_names(name: &PlainName, authzid: Option<&PlainName>, nonce: &NoncePart)
    ensures name { IsPlainName name.now }
    ensures authzid { IfSome (option_copied authzid.entry) IsPlainName }
    ensures nonce { IsNoncePart nonce.now }
{
    name.bytes();
    nonce.bytes();
    if let Some(authzid) = authzid {
        authzid.bytes();
    }
}
