//! The keys of an account, in use for one login. AuthMessage (RFC 5802, section 3) is never kept: its parts are added to two MACs
//! as they come. The MAC under StoredKey checks the client's proof; the one under ServerKey signs.
ghost use Rattle.std.specs.Prelude.{◌≡◌, ◌≤◌, ◌↔◌, ℕ, List, [], ◌∷◌, ◌++◌, length, IsTrue};
ghost use Rattle.std.specs.Str.{byte};
ghost use Rattle.mac_core.specs.Mechanism.{digest_len_by, hmac_by, IsScramMac};
ghost use Rattle.scram_text.specs.Messages.{ClientFirstParts, client_first_bare};
ghost use Rattle.scram_ends.specs.Entry.{Keys, keys_of};
ghost use Rattle.scram_ends.specs.Auth.{auth_to_challenge, server_signature, IsProof};

use crate::bytes::are_same;
use mac_core::{Mechanism, ScramKeys, ScramMac, Tag, copy_of, xor};

/// StoredKey, and the two MACs of AuthMessage up to its last part.
#[derive(Drop)]
pub(crate) struct Signing {
    mechanism: Mechanism,
    // StoredKey.
    stored: Tag,
    // Under StoredKey.
    proof_mac: ScramMac,
    // Under ServerKey.
    signature_mac: ScramMac,

    ghost is_mac: { ∥ ((key : List ℕ) × (read : List ℕ) × IsScramMac mechanism signature_mac key read) ∥₁ },
}

impl Signing {
    ghost use Rattle.scram_ends.specs.Standing.{IsSigning};

    /// The keys for a login with this client-first-message-bare and this server-first message.
    pub(crate) fn new(
        mechanism: Mechanism,
        keys: &ScramKeys,
        bare: &[u8],
        server_first: &[u8],
    ) -> Signing
        ensures { (first : ClientFirstParts) → bare.now ≡ client_first_bare first
            → IsSigning result mechanism (keys_of keys.now) (auth_to_challenge first server_first.now) }
    {
        Signing {
            mechanism,
            stored: copy_of(keys.stored.as_slice()),
            proof_mac: running_mac(mechanism, &keys.stored, bare, server_first),
            signature_mac: running_mac(mechanism, &keys.server, bare, server_first),
        }
    }

    /// Whether the proof is made with the account's keys, for the AuthMessage that ends with this
    /// client-final-message-without-proof.
    pub(crate) fn is_proof(&self, client_final_without_proof: &[u8], proof: &Tag) -> bool
        ensures { (m : Mechanism) (keys : Keys) (read : List ℕ) → IsSigning self.now m keys read
            → (IsTrue result ↔ IsProof m keys (read ++ client_final_without_proof.now) proof.now.items) }
    {
        let signature = signed(&self.proof_mac, client_final_without_proof);
        if proof.len() != signature.len() {
            return false;
        }
        let stored = self.mechanism.stored_key(&xor(proof, &signature));
        are_same(stored.as_slice(), self.stored.as_slice())
    }

    /// The server's signature of the AuthMessage that ends with this client-final-message-without-proof.
    pub(crate) fn signature(&self, client_final_without_proof: &[u8]) -> Tag
        ensures value { (m : Mechanism) (keys : Keys) (read : List ℕ) → IsSigning self.now m keys read
            → result.items ≡ server_signature m keys (read ++ client_final_without_proof.now) }
        ensures some { 1 ≤ length result.items }
    {
        signed(&self.signature_mac, client_final_without_proof)
    }
}

/// The keys of an account for one mechanism, ready for logins: the blocks that HMAC makes of them (RFC 2104, section 2) are already
/// hashed.
#[derive(Drop)]
pub(crate) struct ReadyKeys {
    mechanism: Mechanism,
    // StoredKey.
    stored: Tag,
    // ServerKey.
    server: Tag,
    // Of the empty text, under StoredKey.
    proof_mac: ScramMac,
    // Of the empty text, under ServerKey.
    signature_mac: ScramMac,

    ghost ready: { ∥ IsScramMac mechanism proof_mac stored.items [] × IsScramMac mechanism signature_mac server.items [] ∥₁ },
}

impl ReadyKeys {
    ghost use Rattle.scram_ends.specs.Standing.{IsSigning};
    ghost use Rattle.scram_ends.specs.inner.Ready.{AreOf};

    /// Makes these keys ready.
    pub(crate) fn new(mechanism: Mechanism, keys: &ScramKeys) -> ReadyKeys
        ensures { AreOf result mechanism (keys_of keys.now) }
    {
        ReadyKeys {
            mechanism,
            stored: copy_of(keys.stored.as_slice()),
            server: copy_of(keys.server.as_slice()),
            proof_mac: ScramMac::new(mechanism, keys.stored.as_slice()),
            signature_mac: ScramMac::new(mechanism, keys.server.as_slice()),
        }
    }

    /// Whether they are these keys, for this mechanism.
    pub(crate) fn are_of(&self, mechanism: Mechanism, keys: &ScramKeys) -> bool
        ensures { IsTrue result ↔ AreOf self.now mechanism (keys_of keys.now) }
    {
        self.mechanism == mechanism
            && are_same(self.stored.as_slice(), keys.stored.as_slice())
            && are_same(self.server.as_slice(), keys.server.as_slice())
    }

    /// As `Signing::new` with these keys.
    pub(crate) fn signing(&self, bare: &[u8], server_first: &[u8]) -> Signing
        ensures { (m : Mechanism) (keys : Keys) (first : ClientFirstParts) → AreOf self.now m keys → bare.now ≡ client_first_bare first
            → IsSigning result m keys (auth_to_challenge first server_first.now) }
    {
        Signing {
            mechanism: self.mechanism,
            stored: copy_of(self.stored.as_slice()),
            proof_mac: with_challenge(self.proof_mac.copy(), bare, server_first),
            signature_mac: with_challenge(self.signature_mac.copy(), bare, server_first),
        }
    }
}

/// A running MAC of AuthMessage up to client-final-message-without-proof.
pub(crate) fn running_mac(
    mechanism: Mechanism,
    key: &Tag,
    bare: &[u8],
    server_first: &[u8],
) -> ScramMac
    ensures { IsScramMac mechanism result key.now.items
        (bare.now ++ byte "," ∷ [] ++ server_first.now ++ byte "," ∷ []) }
{
    with_challenge(ScramMac::new(mechanism, key.as_slice()), bare, server_first)
}

// The MAC of an empty text, after AuthMessage up to client-final-message-without-proof.
fn with_challenge(mac: ScramMac, bare: &[u8], server_first: &[u8]) -> ScramMac
    ensures { (m : Mechanism) (key : List ℕ) → IsScramMac m mac key []
        → IsScramMac m result key (bare.now ++ byte "," ∷ [] ++ server_first.now ++ byte "," ∷ []) }
{
    let mut mac = mac;
    mac.add(bare);
    mac.add(b",");
    mac.add(server_first);
    mac.add(b",");
    mac
}

// The MAC of the text added so far, followed by `rest`.
fn signed(mac: &ScramMac, rest: &[u8]) -> Tag
    ensures value { (m : Mechanism) (key read : List ℕ) → IsScramMac m mac.now key read
        → result.items ≡ hmac_by m key (read ++ rest.now) }
    ensures len { (m : Mechanism) (key read : List ℕ) → IsScramMac m mac.now key read
        → length result.items ≡ digest_len_by m }
{
    let mut mac = mac.copy();
    mac.add(rest);
    mac.done()
}
