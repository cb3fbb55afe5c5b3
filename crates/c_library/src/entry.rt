//! What a server keeps for a name and a mechanism, as C keeps it.
ghost use Rattle.std.specs.Prelude.{◌≡◌, ◌≤◌, ℕ, take, option_map, IfSome, IfNone, IfOk, OnOk, IfErr};
ghost use Rattle.mac_core.specs.Mechanism.{digest_len_by};
ghost use Rattle.mac_core.specs.declared.mechanism.Mechanism.{Mechanism};
ghost use Rattle.scram_ends.specs.Entry.{entry_of, keys_of};
ghost use Rattle.c_library.specs.Demands.{AreMet, IsFirstFault};
ghost use Rattle.c_library.specs.Entries.{entry_demands, entry_in, keys_in, HasSalt, HasKeyLength, IsNoMechanism};
ghost use Rattle.c_library.specs.inner.Parts.{ArePlain};
ghost use Rattle.c_library.specs.Numbers.{mechanism_number, fault_number};

use crate::act_as::Bytes;
use crate::fault::Fault;
use crate::texts::Texts;
use mac_core::{Mechanism, ScramKeys, copy_of};
use scram_ends::{EntryParts, KeyBytes, KeysView};
use scram_text::{MAX_SALT_LEN, PlainName, Salt};

/// What a server keeps for a name and a mechanism: an account's salt, count and keys, or a decoy's, which has no keys.
#[repr(C)]
#[derive(Drop)]
pub struct StoredEntry {
    /// The mechanism: 1 for SCRAM-SHA-1, 256 for SCRAM-SHA-256.
    pub mechanism: u32,

    /// The iteration count, at least 1.
    pub count: u32,

    /// The length of the salt, 1 to 64.
    pub salt_len: usize,

    /// The length of each key: 20 for SCRAM-SHA-1, 32 for SCRAM-SHA-256. 0 makes it a decoy.
    pub key_len: usize,

    /// The salt, and after its length any bytes.
    pub salt: [u8; 64],

    /// StoredKey, and after its length any bytes.
    pub stored_key: [u8; 64],

    /// ServerKey, and after its length any bytes.
    pub server_key: [u8; 64],
}

impl StoredEntry {
    /// What a server sees, with these names to act as.
    pub(crate) fn view<'a>(
        &self,
        mechanism: Mechanism,
        act_as: &'a [PlainName],
    ) -> Result<KeysView<'a>, Fault>
        ensures met { IfOk result (λ view. AreMet (entry_demands mechanism self.now)) }
        ensures value { IfOk result (λ view. entry_of view ≡ entry_in self.now act_as.now) }
        ensures fault { IfErr result (λ fault. IsFirstFault (entry_demands mechanism self.now) (fault_number fault)) }
    {
        if let Err(fault) = self.check(mechanism) {
            return Err(fault);
        }
        let Some(salt) = self.salt() else {
            return Err(Fault::Salt);
        };
        Ok(KeysView {
            salt,
            count: self.count,
            keys: self.keys(),
            act_as,
        })
    }

    /// Whether the struct is in its form.
    pub(crate) fn check(&self, mechanism: Mechanism) -> Result<(), Fault>
        ensures met { OnOk result (AreMet (entry_demands mechanism self.now)) }
        ensures fault { IfErr result (λ fault. IsFirstFault (entry_demands mechanism self.now) (fault_number fault)) }
    {
        if self.count == 0 {
            return Err(Fault::Count);
        }
        if self.salt_len == 0 || MAX_SALT_LEN < self.salt_len {
            return Err(Fault::Salt);
        }
        if self.key_len != 0 && self.key_len != digest_len(mechanism) {
            return Err(Fault::KeyLength);
        }
        Ok(())
    }

    /// What a server sees, where it lies, with these other names to act as.
    pub(crate) fn parts<'a>(
        &'a self,
        mechanism: Mechanism,
        act_as: &'a [Bytes<'a>],
    ) -> EntryParts<'a, KeyBytes<'a>, Texts<'a>>
        requires { AreMet (entry_demands mechanism self.now) }
        ensures mechanism { result.mechanism ≡ mechanism }
        ensures salt { result.salt.now ≡ take self.now.salt_len self.now.salt }
        ensures count { result.count ≡ self.now.count }
        ensures keys { ArePlain result.keys (keys_in self.now) }
        ensures others { result.others.list.now ≡ act_as.now }
    {
        EntryParts {
            mechanism,
            salt: &self.salt[..self.salt_len],
            count: self.count,
            keys: self.key_bytes(),
            others: Texts { list: act_as },
        }
    }

    // The bytes of the keys, or None of a decoy.
    fn key_bytes(&self) -> Option<KeyBytes<'_>>
        requires { self.now.key_len ≤ 64 }
        ensures { ArePlain result (keys_in self.now) }
    {
        if self.key_len == 0 {
            return None;
        }
        Some(KeyBytes {
            stored: &self.stored_key[..self.key_len],
            server: &self.server_key[..self.key_len],
        })
    }

    // The salt, or None if it does not have 1 to 64 bytes.
    fn salt(&self) -> Option<Salt>
        ensures some { IfSome result (λ salt. HasSalt self.now × (salt ≡ take self.now.salt_len self.now.salt)) }
        ensures none { IfNone result (HasSalt self.now → ⊥) }
    {
        if MAX_SALT_LEN < self.salt_len {
            return None;
        }
        Salt::new(&self.salt[..self.salt_len])
    }

    // The keys, or None of a decoy.
    fn keys(&self) -> Option<ScramKeys>
        requires { self.now.key_len ≤ 64 }
        ensures { option_map keys_of result ≡ keys_in self.now }
    {
        if self.key_len == 0 {
            return None;
        }
        Some(ScramKeys {
            stored: copy_of(&self.stored_key[..self.key_len]),
            server: copy_of(&self.server_key[..self.key_len]),
        })
    }
}

/// The mechanism of this number, or None if there is none.
pub(crate) fn mechanism_of(number: u32) -> Option<Mechanism>
    ensures some { IfSome result (λ mechanism. number ≡ mechanism_number mechanism) }
    ensures every { (mechanism : Mechanism) → number ≡ mechanism_number mechanism → result ≡ Some mechanism }
    ensures none { IfNone result (IsNoMechanism number) }
{
    match number {
        1 => Some(Mechanism::ScramSha1),
        256 => Some(Mechanism::ScramSha256),
        _ => None,
    }
}

/// The length of the mechanism's digests and keys.
pub(crate) fn digest_len(mechanism: Mechanism) -> usize
    ensures { result ≡ digest_len_by mechanism }
{
    match mechanism {
        Mechanism::ScramSha1 => 20,
        Mechanism::ScramSha256 => 32,
    }
}
