//! A recorded login, judged in one call that keeps nothing and copies no message. A server that has no place for a `ServerWait`
//! between two calls is handed its challenge back, or reads it where it recorded it.
ghost use Rattle.std.specs.Prelude.{◌≡◌, ◌↔◌, ℕ, List, length, true, is_ok, IsTrue, IfOk, IfErr};
ghost use Rattle.std.specs.Bool.{OnTrue, OnFalse};
ghost use Rattle.std.specs.List.{Contains};
ghost use Rattle.std.specs.declared.option.Option.{Option};
ghost use Rattle.mac_core.specs.Mechanism.{digest_len_by};
ghost use Rattle.mac_core.specs.declared.mechanism.Mechanism.{Mechanism};
ghost use Rattle.scram_text.specs.Class.{IsNonce};
ghost use Rattle.scram_text.specs.Limits.{max_nonce_len};
ghost use Rattle.scram_text.specs.Messages.{ClientFirstParts, IsClientFirst, ClientFinalParts, client_final_without_proof};
ghost use Rattle.scram_text.specs.Shown.{ShowsClientFirst, ShowsClientFinal};
ghost use Rattle.scram_ends.specs.Entry.{Keys, Entry};
ghost use Rattle.scram_ends.specs.Stages.{Challenged};
ghost use Rattle.scram_ends.specs.Auth.{client_signature, IsProof};
ghost use Rattle.scram_ends.specs.Opening.{IsNameOf, IsAuthzidOf, IsTakenUp, IsAllowed, Opening, IsOpening};
ghost use Rattle.scram_ends.specs.First.{IsRefusedWith, IsRecordedFault};
ghost use Rattle.scram_ends.specs.Verdict.{IsDue, IsVerdictOn, due_of, due_text, verdict_of};
ghost use Rattle.scram_ends.specs.Login.{IsValidLogin};
ghost use Rattle.scram_ends.specs.SigningKeys.{StandFor};
ghost use Rattle.scram_ends.specs.Stateless.{entry_of_parts, login_of_parts};
ghost use Rattle.scram_ends.specs.inner.Stateless.{ShowsLogin, IsRightBeforeProof};

use crate::auth_message::AuthMessage;
use crate::bytes::are_same;
use crate::first::{FirstFault, is_unbound};
use crate::other_names::OtherNames;
use crate::recorded::RecordedFault;
use crate::signing_keys::SigningKeys;
use crate::usual::{answered_nonce, usual_final};
use crate::verdict::{Judged, Refusal, Verdict};
use mac_core::{Mechanism, Tag, xor};
use scram_text::{ClientFinal, ClientFirst, SaslText, read_client_final, read_client_first};

/// What a server keeps for a name and one mechanism, where it lies: an account's keys, or a decoy.
#[derive(Drop)]
pub struct EntryParts<'a, K, N> {
    /// The mechanism that the client uses.
    pub mechanism: Mechanism,

    /// The salt that the server sent, 1 to 64 bytes: no challenge has another.
    pub salt: &'a [u8],

    /// The iteration count that the server sent, at least 1: no challenge has 0.
    pub count: u32,

    /// The keys. None makes it a decoy, for which no proof passes.
    pub keys: Option<K>,

    /// The other names that the account may act as.
    pub others: N,
}

/// The verdict on a recorded login (RFC 5802, section 5): as `ServerWait::recorded` and then `ServerWait::judge` give it, in one call.
/// It does not allocate. Errors, of the first two messages: those of `first_name` for the client-first message, else 31
/// NotThisChallenge, if the second is not a challenge to it with this salt and count.
pub fn judge_login<K: SigningKeys, N: OtherNames>(
    entry: &EntryParts<'_, K, N>,
    client_first: &[u8],
    server_first: &[u8],
    client_final: &[u8],
) -> Result<Judged, RecordedFault>
    // The first two messages open a login, and the verdict is the one that is due for the keys for which those here stand.
    ensures opens { IfOk result (λ judged. (held : Option Keys) → (opening : Opening)
        × IsOpening (entry_of_parts entry.now (N.names entry.now.others) held) client_first.now server_first.now opening) }
    ensures due { IfOk result (λ judged. (held : Option Keys) → StandFor K.IsFor entry.now.keys entry.now.mechanism held
        → IsDue (login_of_parts entry.now (N.names entry.now.others) held client_first.now server_first.now)
        client_final.now (due_of judged)) }
    // The login is accepted if and only if it is valid: this follows from `due` and the law `accepts_exactly_valid`.
    ensures valid { IfOk result (λ judged. (held : Option Keys) → StandFor K.IsFor entry.now.keys entry.now.mechanism held
        → ((verdict_of (due_of judged) ≡ Verdict.Accepted)
        ↔ IsValidLogin (login_of_parts entry.now (N.names entry.now.others) held client_first.now server_first.now)
        client_final.now (due_text (due_of judged)))) }
    // Whatever the keys, two messages that open a login are judged.
    ensures every { (held : Option Keys) (opening : Opening)
        → IsOpening (entry_of_parts entry.now (N.names entry.now.others) held) client_first.now server_first.now opening
        → is_ok result ≡ true }
    ensures err { IfErr result (λ fault. (held : Option Keys)
        → IsRecordedFault (entry_of_parts entry.now (N.names entry.now.others) held) client_first.now server_first.now fault) }
{
    let first = read_first(client_first)?;
    match answered_nonce(entry.salt, entry.count, first.nonce, server_first) {
        Some(nonce) => Ok(verdict_on(entry, &first, nonce, server_first, client_final)),
        None => Err(RecordedFault::NotThisChallenge),
    }
}

/// Reads a client-first message that a server takes up. Errors: those of `first_name`.
#[tactic(auto, using(scram_text::proofs::lemmas::FirstUnmet::found_is_first))]
pub fn read_first(client_first: &[u8]) -> Result<ClientFirst<'_>, FirstFault>
    ensures ok { IfOk result (λ message. (first : ClientFirstParts) × (name : List ℕ) × (authzid : Option (List ℕ))
        × IsClientFirst client_first.now first × ShowsClientFirst message first × IsTakenUp first name authzid) }
    ensures err { IfErr result (λ fault. IsRefusedWith client_first.now fault) }
{
    let message = read_client_first(client_first)?;
    if message.mandatory {
        return Err(FirstFault::Mandatory);
    }
    if !is_unbound(&message.flag) {
        return Err(FirstFault::BindingAsked);
    }
    if !are_plain(&message.name, &message.authzid) {
        return Err(FirstFault::OutsideProfile);
    }
    Ok(message)
}

// Whether the saslnames spell plain names.
fn are_plain(name: &SaslText<'_>, authzid: &Option<SaslText<'_>>) -> bool
    ensures plain { OnTrue result ((plain : List ℕ) × (act_as : Option (List ℕ)) × IsNameOf plain name.now
        × IsAuthzidOf act_as authzid.now) }
    ensures not { OnFalse result ((plain : List ℕ) (act_as : Option (List ℕ)) → IsNameOf plain name.now
        → IsAuthzidOf act_as authzid.now → ⊥) }
{
    if !is_plain(name) {
        return false;
    }
    match authzid {
        None => true,
        Some(spelled) => is_plain(spelled),
    }
}

// Whether the saslname spells a plain name.
fn is_plain(spelled: &SaslText<'_>) -> bool
    ensures plain { OnTrue result ((name : List ℕ) × IsNameOf name spelled.now) }
    ensures not { OnFalse result ((name : List ℕ) → IsNameOf name spelled.now → ⊥) }
{
    spelled.plain().is_some()
}

// The verdict on a client-final message, after these two messages: the first shows `first`, and the second has this nonce.
fn verdict_on<K: SigningKeys, N: OtherNames>(
    entry: &EntryParts<'_, K, N>,
    first: &ClientFirst<'_>,
    nonce: &[u8],
    server_first: &[u8],
    client_final: &[u8],
) -> Judged
    requires { IsNonce max_nonce_len nonce.now }
    ensures { (login : Challenged) (opening : Opening)
        → ShowsLogin K.IsFor (N.names entry.now.others) entry.now first.now nonce.now server_first.now login opening
        → IsOpening login.entry login.client_first login.server_first opening
        → IsDue login client_final.now (due_of result) }
{
    if let Some((without_proof, proof)) = usual_final(first.header, nonce, client_final) {
        return judge_proof(entry, first, server_first, without_proof, &proof);
    }
    match read_client_final(client_final) {
        Ok(parts) => judge_parts(entry, first, nonce, server_first, &parts),
        Err(_) => Judged::Refused(Refusal::InvalidEncoding),
    }
}

// The verdict on the parts of a client-final message.
#[tactic(auto, using(scram_text::proofs::lemmas::FirstUnmet::found_is_first))]
fn judge_parts<K: SigningKeys, N: OtherNames>(
    entry: &EntryParts<'_, K, N>,
    first: &ClientFirst<'_>,
    nonce: &[u8],
    server_first: &[u8],
    parts: &ClientFinal<'_>,
) -> Judged
    ensures { (login : Challenged) (opening : Opening) (final : ClientFinalParts)
        → ShowsLogin K.IsFor (N.names entry.now.others) entry.now first.now nonce.now server_first.now login opening
        → ShowsClientFinal parts.now final → IsVerdictOn login opening final (due_of result) }
{
    if parts.mandatory {
        return Judged::Refused(Refusal::ExtensionsNotSupported);
    }
    if !are_same(parts.nonce, nonce) {
        return Judged::Refused(Refusal::OtherNonce);
    }
    if !are_same(parts.channel.as_slice(), first.header) {
        return Judged::Refused(Refusal::Channel);
    }
    judge_proof(
        entry,
        first,
        server_first,
        parts.without_proof,
        &parts.proof,
    )
}

// The verdict on a client-final message that is right but for its proof, perhaps, and the name to act as.
#[tactic(auto, using(scram_text::proofs::lemmas::FirstUnmet::found_is_first))]
fn judge_proof<K: SigningKeys, N: OtherNames>(
    entry: &EntryParts<'_, K, N>,
    first: &ClientFirst<'_>,
    server_first: &[u8],
    without_proof: &[u8],
    proof: &Tag,
) -> Judged
    ensures { (login : Challenged) (opening : Opening) (final : ClientFinalParts) (nonce : List ℕ)
        → ShowsLogin K.IsFor (N.names entry.now.others) entry.now first.now nonce server_first.now login opening
        → IsRightBeforeProof opening final
        → without_proof.now ≡ client_final_without_proof final → proof.now.items ≡ final.proof
        → IsVerdictOn login opening final (due_of result) }
{
    let Some(keys) = &entry.keys else {
        return Judged::Refused(Refusal::InvalidProof);
    };
    let message = AuthMessage {
        bare: first.bare,
        server_first,
        without_proof,
    };
    let signatures = keys.signatures(entry.mechanism, &message);
    if !is_proof(keys, entry.mechanism, &signatures.client, proof) {
        return Judged::Refused(Refusal::InvalidProof);
    }
    if !is_allowed(&entry.others, &first.name, &first.authzid) {
        return Judged::Refused(Refusal::NotAuthorised);
    }
    Judged::Accepted(signatures.server)
}

// Whether the proof is one for these keys, and this ClientSignature.
fn is_proof<K: SigningKeys>(keys: &K, mechanism: Mechanism, signature: &Tag, proof: &Tag) -> bool
    requires { length signature.now.items ≡ digest_len_by mechanism }
    ensures { (held : Keys) (auth : List ℕ) → K.IsFor keys.now mechanism held
        → signature.now.items ≡ client_signature mechanism held auth
        → (IsTrue result ↔ IsProof mechanism held auth proof.now.items) }
{
    if proof.len() != signature.len() {
        return false;
    }
    keys.is_stored(mechanism, &xor(proof, signature))
}

// Whether the account may act as the name that `authzid` spells: there is none, or it is the account's own name or one of the others.
fn is_allowed<N: OtherNames>(
    others: &N,
    name: &SaslText<'_>,
    authzid: &Option<SaslText<'_>>,
) -> bool
    ensures { (entry : Entry) (plain : List ℕ) (act_as : Option (List ℕ)) → N.names others.now ≡ entry.act_as
        → IsNameOf plain name.now → IsAuthzidOf act_as authzid.now → (IsTrue result ↔ IsAllowed entry plain act_as) }
{
    match authzid {
        None => true,
        Some(spelled) => {
            are_same(spelled.spelled(), name.spelled()) || is_among(others, spelled)
        }
    }
}

// Whether the name that the saslname spells is one of the others.
fn is_among<N: OtherNames>(others: &N, spelled: &SaslText<'_>) -> bool
    ensures { (name : List ℕ) → IsNameOf name spelled.now → (IsTrue result ↔ Contains (N.names others.now) name) }
{
    match spelled.plain() {
        Some(name) => others.has(name.bytes()),
        None => false,
    }
}
