//! The server's end of a login (RFC 5802, section 3):
//!
//! ```text
//! client-first   n,,n=user,r=abc
//! server-first   r=abcdef,s=QSXCR+Q6sek8bf92,i=4096    server_first
//! client-final   c=biws,r=abcdef,p=..
//! server-final   v=.. or e=..                          ServerWait::finish, judge
//! ```
//!
//! The RFC lets a server report the fault of a client-first message in an `e=`. This one only returns the fault to its caller, who
//! need not report it. It sends five of the RFC's error values; it refuses a name that has no keys in the same way as a wrong
//! proof.
ghost use Rattle.std.specs.Prelude.{◌≡◌, ◌≤◌, ◌<◌, ◌+◌, ◌↔◌, ℕ, List, ◌++◌, length, IsTrue, IfOk, IfErr, Contains};
ghost use Rattle.std.specs.declared.option.Option.{Option};
ghost use Rattle.scram_text.specs.Limits.{max_message_len, max_nonce_len};
ghost use Rattle.scram_text.specs.Messages.{ClientFirstParts, client_first_bare, IsClientFirst, ClientFinalParts, IsServerFinal};
ghost use Rattle.scram_text.specs.Shown.{ShowsClientFinal};
ghost use Rattle.scram_text.specs.Appended.{LeavesOnErr, LacksRoom};
ghost use Rattle.scram_ends.specs.Entry.{entry_of};
ghost use Rattle.scram_ends.specs.Stages.{Challenged, challenged_login};
ghost use Rattle.scram_ends.specs.Auth.{auth_to_challenge};
ghost use Rattle.scram_ends.specs.Opening.{IsTakenUp, IsAllowed, Opening, IsOpening};
ghost use Rattle.scram_ends.specs.Verdict.{Due, IsDue, IsVerdictOn, CanBeReported, due_of, due_text, final_due, verdict_of};
ghost use Rattle.scram_ends.specs.Login.{IsValidLogin};
ghost use Rattle.scram_ends.specs.Standing.{IsSigningFor, StandsForChallenged};
ghost use Rattle.scram_ends.specs.First.{IsRefusedWith, IsChallengeTo};
ghost use Rattle.scram_ends.specs.inner.TakenFirst.{ShowsOpening};
ghost use Rattle.scram_ends.specs.Faults.{first_refused_number};
ghost use Rattle.scram_ends.specs.declared.lengths.TheConstants.{MAX_HEADER_LEN};

use crate::bytes::{are_same, concatenated};
use crate::first::{FirstFault, TakenFirst, take_up};
use crate::keys_view::KeysView;
use crate::lengths::MAX_HEADER_LEN;
use crate::signing::Signing;
use crate::verdict::{Judged, Refusal, Verdict};
use crate::write::{write_challenge, write_judgement};
use arrayvec::ArrayVec;
use mac_core::{Mechanism, copy_of};
use scram_text::{ClientFinal, MAX_NONCE_LEN, NoncePart, PlainName, WriteFault, read_client_final};
use std::alloc::Allocator;
use thiserror::Error;

/// Why a server sends no challenge.
#[derive(Clone, Copy, Debug, PartialEq, Eq, Error)]
pub enum FirstRefused {
    /// 20 to 23: the server refuses the client-first message.
    #[error("{0}")]
    First(FirstFault),

    /// 16, 17 or 99: the challenge could not be written. `server_first` returns only 99.
    #[error("{0}")]
    Write(WriteFault),
}

impl FirstRefused {
    /// The number of the refusal: 20 to 23 for the client-first message, 16, 17 or 99 for the challenge.
    pub fn number(&self) -> u16
        ensures { result ≡ first_refused_number self.now }
    {
        match self {
            FirstRefused::First(fault) => fault.number(),
            FirstRefused::Write(fault) => fault.number(),
        }
    }
}

/// A server that has sent its challenge and waits for the client-final message.
///
/// It does not keep the messages, so its contracts say which entry, client-first message and challenge it stands for. Its size is
/// fixed.
#[derive(Drop)]
pub struct ServerWait {
    // The nonce that was sent: the client's, and the server's after it.
    nonce: ArrayVec<u8, MAX_NONCE_LEN>,
    // The gs2-header of client-first.
    header: ArrayVec<u8, MAX_HEADER_LEN>,
    // Whether the account may act as the name that was asked for.
    allowed: bool,
    // None if the account has no keys: no proof is then accepted.
    signing: Option<Signing>,
}

/// Answers a client-first message: appends the challenge to `out`, with the client's nonce followed by `server_nonce`, the
/// entry's salt and its count. Errors: those of `first_name` for the client-first message, else 99 NoMemory, only if `out` had no
/// room reserved for the challenge. After an error `out` is unchanged.
pub fn server_first<A: Allocator>(
    mechanism: Mechanism,
    view: &KeysView<'_>,
    client_first: &[u8],
    server_nonce: &NoncePart,
    out: &mut Vec<u8, A>,
) -> Result<ServerWait, FirstRefused>
    requires { 1 ≤ view.now.count }
    // The challenge is appended, and the value stands for it.
    ensures ok { IfOk result (λ wait. (server_first : List ℕ)
        × (out.new.items ≡ out.old.items ++ server_first)
        × IsChallengeTo (entry_of view.now) client_first.now server_nonce.now server_first
        × StandsForChallenged wait (challenged_login (entry_of view.now) mechanism client_first.now server_first)) }
    ensures leaves { LeavesOnErr result out.old out.new }
    ensures first { IfErr result (λ refused. (fault : FirstFault) → refused ≡ FirstRefused.First fault
        → IsRefusedWith client_first.now fault) }
    // A fault of writing comes only after a client-first message that is taken up, and it is always 99 NoMemory.
    ensures taken { IfErr result (λ refused. (fault : WriteFault) → refused ≡ FirstRefused.Write fault
        → (fault ≡ WriteFault.NoMemory) × ((first : ClientFirstParts) × (name : List ℕ)
        × (authzid : Option (List ℕ)) × IsClientFirst client_first.now first × IsTakenUp first name authzid)) }
    ensures no_memory { IfErr result (λ refused. refused ≡ FirstRefused.Write WriteFault.NoMemory
        → (server_first : List ℕ) × IsChallengeTo (entry_of view.now) client_first.now server_nonce.now server_first
        × LacksRoom out.old server_first) }
{
    let taken = match take_up(client_first) {
        Ok(taken) => taken,
        Err(fault) => return Err(FirstRefused::First(fault)),
    };
    let nonce: ArrayVec<u8, MAX_NONCE_LEN> = concatenated(taken.nonce, server_nonce.bytes());
    let nonce = nonce.as_slice();
    let start = out.len();
    match write_challenge(nonce, &view.salt, view.count, out) {
        Ok(()) => {
            let signing = signing_for(mechanism, view, taken.bare, &out.as_slice()[start..]);
            Ok(wait_for(view, &taken, nonce, signing))
        }
        Err(fault) => Err(FirstRefused::Write(fault)),
    }
}

/// A server that waits for the client-final message after a challenge with this nonce, and signs with these keys.
pub(crate) fn wait_for(
    view: &KeysView<'_>,
    taken: &TakenFirst<'_>,
    nonce: &[u8],
    signing: Option<Signing>,
) -> ServerWait
    requires nonce { length nonce.now ≤ max_nonce_len }
    requires header { length taken.now.header.now ≤ MAX_HEADER_LEN }
    ensures { (mechanism : Mechanism) (client_first server_first : List ℕ) (opening : Opening)
        → IsOpening (entry_of view.now) client_first server_first opening → ShowsOpening taken.now nonce.now opening
        → IsSigningFor signing mechanism (entry_of view.now).keys (auth_to_challenge opening.first server_first)
        → StandsForChallenged result (challenged_login (entry_of view.now) mechanism client_first server_first) }
{
    ServerWait {
        nonce: copy_of(nonce),
        header: copy_of(taken.header),
        allowed: is_allowed(view, &taken.name, &taken.authzid),
        signing,
    }
}

// Whether the account may act as the name `authzid`: there is none, or it is the account's own name or one of `act_as`.
fn is_allowed(view: &KeysView<'_>, name: &PlainName, authzid: &Option<PlainName>) -> bool
    ensures { IsTrue result ↔ IsAllowed (entry_of view.now) name.now authzid.now }
{
    match authzid {
        None => true,
        Some(authzid) => {
            are_same(authzid.bytes(), name.bytes()) || is_among(authzid.bytes(), view.act_as)
        }
    }
}

/// Whether the name is one of these.
pub(crate) fn is_among(name: &[u8], names: &[PlainName]) -> bool
    ensures { IsTrue result ↔ Contains names.now name.now }
{
    names.iter().any(|other| other.bytes() == name)
}

// The account's keys for a login with this bare client-first message and this server-first message, or None if the account has no keys.
fn signing_for(
    mechanism: Mechanism,
    view: &KeysView<'_>,
    bare: &[u8],
    server_first: &[u8],
) -> Option<Signing>
    ensures { (first : ClientFirstParts) → bare.now ≡ client_first_bare first
        → IsSigningFor result mechanism (entry_of view.now).keys (auth_to_challenge first server_first.now) }
{
    match &view.keys {
        Some(keys) => Some(Signing::new(mechanism, keys, bare, server_first)),
        None => None,
    }
}

impl ServerWait {
    /// The verdict on a client-final message (RFC 5802, section 5), without writing a message. It is the first of these that
    /// applies:
    /// - InvalidEncoding: the text is not a client-final message;
    /// - ExtensionsNotSupported: an extension is named `m`;
    /// - OtherNonce: the nonce is not exactly the one that was sent;
    /// - Channel: the channel field is not exactly the gs2-header of client-first;
    /// - InvalidProof: the account has no keys, or the proof is not made with them;
    /// - NotAuthorised: the account may not act as the name to act as;
    /// - otherwise the login is accepted, with the server's signature.
    ///
    /// This call does not allocate.
    pub fn judge(self, client_final: &[u8]) -> Judged
        ensures due { (login : Challenged) → StandsForChallenged self login → IsDue login client_final.now (due_of result) }
        // The login is accepted if and only if it is valid with the message due as its last: this follows from `due` and the
        // law `accepts_exactly_valid`.
        ensures valid { (login : Challenged) → StandsForChallenged self login
            → ((verdict_of (due_of result) ≡ Verdict.Accepted)
            ↔ IsValidLogin login client_final.now (due_text (due_of result))) }
    {
        self.verdict_on(client_final)
    }

    // As `judge`, without taking the value.
    fn verdict_on(&self, client_final: &[u8]) -> Judged
        ensures due { (login : Challenged) → StandsForChallenged self.now login → IsDue login client_final.now (due_of result) }
        ensures report { CanBeReported (due_of result) }
    {
        match read_client_final(client_final) {
            Ok(parts) => self.judge_final(&parts),
            Err(_) => Judged::Refused(Refusal::InvalidEncoding),
        }
    }

    // The verdict on the parts of a client-final message.
    #[tactic(auto, using(scram_text::proofs::lemmas::FirstUnmet::found_is_first))]
    fn judge_final(&self, parts: &ClientFinal<'_>) -> Judged
        ensures verdict { (login : Challenged) (stands : StandsForChallenged self.now login) (final : ClientFinalParts)
            → ShowsClientFinal parts.now final → IsVerdictOn login stands.opening final (due_of result) }
        ensures report { CanBeReported (due_of result) }
    {
        if parts.mandatory {
            return Judged::Refused(Refusal::ExtensionsNotSupported);
        }
        if !are_same(parts.nonce, self.nonce.as_slice()) {
            return Judged::Refused(Refusal::OtherNonce);
        }
        if !are_same(parts.channel.as_slice(), self.header.as_slice()) {
            return Judged::Refused(Refusal::Channel);
        }
        let Some(signing) = &self.signing else {
            return Judged::Refused(Refusal::InvalidProof);
        };
        if !signing.is_proof(parts.without_proof, &parts.proof) {
            return Judged::Refused(Refusal::InvalidProof);
        }
        if !self.allowed {
            return Judged::Refused(Refusal::NotAuthorised);
        }
        Judged::Accepted(signing.signature(parts.without_proof))
    }

    /// Appends the server's final message to `out` and returns its verdict: that the login is accepted, or why not, as `judge`
    /// decides.
    ///
    /// Errors: 99 NoMemory, only if `out` had no room reserved for the message, which has at most 2048 bytes. The value is then
    /// handed back, and `out` is unchanged.
    pub fn finish<A: Allocator>(
        self,
        client_final: &[u8],
        out: &mut Vec<u8, A>,
    ) -> Result<Verdict, (ServerWait, WriteFault)>
        // The message due, a server-final message, is appended, and the verdict is the one that it contains.
        ensures ok { IfOk result (λ verdict. (login : Challenged) → StandsForChallenged self login
            → (due : Due) × IsDue login client_final.now due × (verdict ≡ verdict_of due)
            × (out.new.items ≡ out.old.items ++ due_text due) × IsServerFinal (due_text due) (final_due due)) }
        // A login is accepted if and only if it is valid: this follows from `ok` and the law
        // `accepts_exactly_valid`.
        ensures valid { IfOk result (λ verdict. (login : Challenged) → StandsForChallenged self login
            → (server_final : List ℕ) × (out.new.items ≡ out.old.items ++ server_final)
            × ((verdict ≡ Verdict.Accepted) ↔ IsValidLogin login client_final.now server_final)) }
        ensures leaves { LeavesOnErr result out.old out.new }
        // The only fault is 99 NoMemory, and the value is handed back unchanged.
        ensures back { IfErr result (λ refused. (refused.0 ≡ self) × (refused.1 ≡ WriteFault.NoMemory)) }
        // It comes only if the message due is within the limit, and there was no room for it.
        ensures no_memory { IfErr result (λ refused. (login : Challenged) → StandsForChallenged self login
            → (due : Due) × IsDue login client_final.now due
            × (length (due_text due) ≤ max_message_len) × LacksRoom out.old (due_text due)) }
    {
        let judged = self.verdict_on(client_final);
        match write_judgement(&judged, out) {
            Ok(()) => Ok(judged.verdict()),
            Err(fault) => Err((self, fault)),
        }
    }
}
