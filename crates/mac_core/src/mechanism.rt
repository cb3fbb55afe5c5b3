//! The formulas of `keys` and `hmac` with a hash function chosen at run time, by the name of a SCRAM mechanism.
ghost use Rattle.std.specs.Prelude.{◌≡◌, ◌≢◌, ◌≤◌, ◌↔◌, IsTrue, ℕ, List, [], ◌++◌, length, IfSome, IfNone};
ghost use Rattle.mac_core.specs.Mechanism.{name_of, IsOffered, digest_len_by, hmac_by, hi_by, client_key_by, stored_key_by, server_key_by};
ghost use Rattle.mac_core.specs.Mechanism.{IsScramMac, password_stored_key_by, password_server_key_by};

use crate::digest::{HSha1, HSha256, Tag};
use crate::hmac::Mac;
use crate::keys;
use crate::keys::ScramKeys;

/// A SCRAM mechanism without channel binding.
#[derive(Clone, Copy, Debug, PartialEq, Eq)]
pub enum Mechanism {
    /// SCRAM-SHA-1 (RFC 5802): digests of 20 bytes.
    ScramSha1,

    /// SCRAM-SHA-256 (RFC 7677): digests of 32 bytes.
    ScramSha256,
}

impl Mechanism {
    /// The mechanism with this name, or None if there is none. Names are in upper case (RFC 4422, section 3.1), and no other
    /// spelling is accepted.
    pub fn of_name(name: &[u8]) -> Option<Mechanism>
        ensures some { IfSome result (λ mechanism. name.now ≡ name_of mechanism) }
        ensures none { IfNone result ((mechanism : Mechanism) → name.now ≢ name_of mechanism) }
    {
        if name == Mechanism::ScramSha1.name().as_bytes() {
            Some(Mechanism::ScramSha1)
        } else if name == Mechanism::ScramSha256.name().as_bytes() {
            Some(Mechanism::ScramSha256)
        } else {
            None
        }
    }

    /// The mechanism's name (RFC 5802, section 4, and RFC 7677, section 3).
    pub fn name(&self) -> &'static str
        ensures { result.now ≡ name_of self.now }
    {
        match self {
            Mechanism::ScramSha1 => "SCRAM-SHA-1",
            Mechanism::ScramSha256 => "SCRAM-SHA-256",
        }
    }

    /// The mechanism to use out of the names that a server offers, separated by single spaces: SCRAM-SHA-256 if it is among them,
    /// else SCRAM-SHA-1 if it is, else None.
    pub fn choose(names: &[u8]) -> Option<Mechanism>
        ensures some { IfSome result (λ mechanism. IsOffered mechanism names.now) }
        ensures best { IsOffered Mechanism.ScramSha256 names.now → result ≡ Some Mechanism.ScramSha256 }
        ensures none { IfNone result ((mechanism : Mechanism) → IsOffered mechanism names.now → ⊥) }
    {
        if Mechanism::ScramSha256.is_offered(names) {
            Some(Mechanism::ScramSha256)
        } else if Mechanism::ScramSha1.is_offered(names) {
            Some(Mechanism::ScramSha1)
        } else {
            None
        }
    }

    // Whether the mechanism's name is among these, which single spaces separate.
    fn is_offered(self, names: &[u8]) -> bool
        ensures { IsTrue result ↔ IsOffered self names.now }
    {
        let wanted = self.name().as_bytes();
        names.split(|byte| *byte == b' ').any(|name| name == wanted)
    }

    /// Hi(password, salt, count) with the mechanism's hash function (RFC 5802, section 2.2). It takes time in proportion to
    /// `count`, which is at least 1.
    pub fn hi(self, password: &[u8], salt: &[u8], count: u32) -> Tag
        requires { 1 ≤ count }
        ensures value { result.items ≡ hi_by self password.now salt.now count }
        ensures len { length result.items ≡ digest_len_by self }
    {
        match self {
            Mechanism::ScramSha1 => keys::hi::<HSha1>(password, salt, count),
            Mechanism::ScramSha256 => keys::hi::<HSha256>(password, salt, count),
        }
    }

    /// ClientKey of a SaltedPassword, with the mechanism's hash function (RFC 5802, section 3).
    pub fn client_key(self, salted: &Tag) -> Tag
        ensures value { result.items ≡ client_key_by self salted.now.items }
        ensures len { length result.items ≡ digest_len_by self }
    {
        match self {
            Mechanism::ScramSha1 => keys::client_key::<HSha1>(salted),
            Mechanism::ScramSha256 => keys::client_key::<HSha256>(salted),
        }
    }

    /// StoredKey of a ClientKey, with the mechanism's hash function (RFC 5802, section 3).
    pub fn stored_key(self, client_key: &Tag) -> Tag
        ensures value { result.items ≡ stored_key_by self client_key.now.items }
        ensures len { length result.items ≡ digest_len_by self }
    {
        match self {
            Mechanism::ScramSha1 => keys::stored_key::<HSha1>(client_key),
            Mechanism::ScramSha256 => keys::stored_key::<HSha256>(client_key),
        }
    }

    /// ServerKey of a SaltedPassword, with the mechanism's hash function (RFC 5802, section 3).
    pub fn server_key(self, salted: &Tag) -> Tag
        ensures value { result.items ≡ server_key_by self salted.now.items }
        ensures len { length result.items ≡ digest_len_by self }
    {
        match self {
            Mechanism::ScramSha1 => keys::server_key::<HSha1>(salted),
            Mechanism::ScramSha256 => keys::server_key::<HSha256>(salted),
        }
    }

    /// The keys of `password` under `salt` and `count`, with the mechanism's hash function (RFC 5802, section 3): 20 bytes each in
    /// SCRAM-SHA-1, 32 in SCRAM-SHA-256. It takes time in proportion to `count`, which is at least 1.
    pub fn scram_keys(self, password: &[u8], salt: &[u8], count: u32) -> ScramKeys
        requires { 1 ≤ count }
        ensures stored { result.stored.items ≡ password_stored_key_by self password.now salt.now count }
        ensures server { result.server.items ≡ password_server_key_by self password.now salt.now count }
        ensures stored_len { length result.stored.items ≡ digest_len_by self }
        ensures server_len { length result.server.items ≡ digest_len_by self }
    {
        match self {
            Mechanism::ScramSha1 => keys::scram_keys::<HSha1>(password, salt, count),
            Mechanism::ScramSha256 => keys::scram_keys::<HSha256>(password, salt, count),
        }
    }
}

/// A running HMAC with a mechanism's hash function. It stands for a mechanism, a key and the text added so far.
#[derive(Drop)]
pub enum ScramMac {
    /// HMAC-SHA-1, which SCRAM-SHA-1 uses (RFC 5802).
    BySha1(Mac<HSha1>),

    /// HMAC-SHA-256, which SCRAM-SHA-256 uses (RFC 7677).
    BySha256(Mac<HSha256>),
}

impl ScramMac {
    /// A MAC of the empty text under `key`, which may have any length.
    pub fn new(mechanism: Mechanism, key: &[u8]) -> ScramMac
        ensures { IsScramMac mechanism result key.now [] }
    {
        match mechanism {
            Mechanism::ScramSha1 => ScramMac::BySha1(Mac::new(key)),
            Mechanism::ScramSha256 => ScramMac::BySha256(Mac::new(key)),
        }
    }

    /// Adds `piece` to the end of the text.
    pub fn add(&mut self, piece: &[u8])
        ensures { (mechanism : Mechanism) (key text : List ℕ) → IsScramMac mechanism self.old key text
            → IsScramMac mechanism self.new key (text ++ piece.now) }
    {
        match self {
            ScramMac::BySha1(mac) => mac.add(piece),
            ScramMac::BySha256(mac) => mac.add(piece),
        }
    }

    /// A second MAC for the same mechanism, key and text.
    pub fn copy(&self) -> ScramMac
        ensures { (mechanism : Mechanism) (key text : List ℕ) → IsScramMac mechanism self.now key text
            → IsScramMac mechanism result key text }
    {
        match self {
            ScramMac::BySha1(mac) => ScramMac::BySha1(mac.copy()),
            ScramMac::BySha256(mac) => ScramMac::BySha256(mac.copy()),
        }
    }

    /// The HMAC of the text under the key: 20 bytes in SCRAM-SHA-1, 32 in SCRAM-SHA-256.
    pub fn done(self) -> Tag
        ensures value { (mechanism : Mechanism) (key text : List ℕ) → IsScramMac mechanism self key text
            → result.items ≡ hmac_by mechanism key text }
        ensures len { (mechanism : Mechanism) (key text : List ℕ) → IsScramMac mechanism self key text
            → length result.items ≡ digest_len_by mechanism }
    {
        match self {
            ScramMac::BySha1(mac) => mac.done(),
            ScramMac::BySha256(mac) => mac.done(),
        }
    }
}
