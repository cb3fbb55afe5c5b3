//! Passwords, nonces and salts within their limits.
ghost use Rattle.std.specs.Prelude.{◌≡◌, ℕ, List};
ghost use Rattle.std.specs.Option.{SomeIff};
ghost use Rattle.scram_text.specs.Class.{IsPassword, IsNoncePart, IsSalt};

use crate::{MAX_NONCE_PART_LEN, MAX_PASSWORD_LEN, MAX_SALT_LEN, class};
use arrayvec::ArrayVec;
use mac_core::copy_of;
use std::marker::Model;

/// A password: 1 to 1024 bytes from 0x20 to 0x7E, which SASLprep (RFC 4013) leaves as they are. Contracts see it as its bytes.
#[derive(Drop)]
pub struct Password {
    bytes: ArrayVec<u8, MAX_PASSWORD_LEN>,
}

impl Model for Password {
    ghost Value = { List ℕ };

    ghost view = { λ p. p.bytes.items };

    ghost invariant = { λ p. IsPassword p.bytes.items };
}

impl Password {
    /// The password of these bytes, or None if they are not 1 to 1024 bytes from 0x20 to 0x7E.
    pub fn new(bytes: &[u8]) -> Option<Password>
        ensures { SomeIff result (IsPassword bytes.now) bytes.now }
    {
        if !class::is_plain_run(bytes, MAX_PASSWORD_LEN) {
            return None;
        }
        Some(Password {
            bytes: copy_of(bytes),
        })
    }

    /// The bytes of the password, 1 to 1024.
    pub fn bytes(&self) -> &[u8]
        ensures value { result.now ≡ self.now }
        ensures fits { IsPassword self.now }
    {
        self.bytes.as_slice()
    }
}

/// What one end contributes to the nonce: 1 to 256 printable characters (RFC 5802, section 7), which are the bytes from 0x21 to 0x7E
/// except the comma. Contracts see it as its bytes.
#[derive(Drop)]
pub struct NoncePart {
    bytes: ArrayVec<u8, MAX_NONCE_PART_LEN>,
}

impl Model for NoncePart {
    ghost Value = { List ℕ };

    ghost view = { λ n. n.bytes.items };

    ghost invariant = { λ n. IsNoncePart n.bytes.items };
}

impl NoncePart {
    /// The nonce part of these bytes, or None if they are not 1 to 256 printable characters.
    pub fn new(bytes: &[u8]) -> Option<NoncePart>
        ensures { SomeIff result (IsNoncePart bytes.now) bytes.now }
    {
        if !class::is_nonce(bytes, MAX_NONCE_PART_LEN) {
            return None;
        }
        Some(NoncePart {
            bytes: copy_of(bytes),
        })
    }

    /// The bytes of the nonce part, 1 to 256.
    pub fn bytes(&self) -> &[u8]
        ensures value { result.now ≡ self.now }
        ensures fits { IsNoncePart self.now }
    {
        self.bytes.as_slice()
    }
}

/// A salt: 1 to 64 bytes. Contracts see it as its bytes.
#[derive(Drop)]
pub struct Salt {
    bytes: ArrayVec<u8, MAX_SALT_LEN>,
}

impl Model for Salt {
    ghost Value = { List ℕ };

    ghost view = { λ s. s.bytes.items };

    ghost invariant = { λ s. IsSalt s.bytes.items };
}

impl Salt {
    /// The salt of these bytes, or None if there are not 1 to 64.
    pub fn new(bytes: &[u8]) -> Option<Salt>
        ensures { SomeIff result (IsSalt bytes.now) bytes.now }
    {
        if bytes.is_empty() || MAX_SALT_LEN < bytes.len() {
            return None;
        }
        Some(Salt {
            bytes: copy_of(bytes),
        })
    }

    /// The bytes of the salt, 1 to 64.
    pub fn bytes(&self) -> &[u8]
        ensures value { result.now ≡ self.now }
        ensures fits { IsSalt self.now }
    {
        self.bytes.as_slice()
    }

    /// A copy of the salt.
    pub fn copy(&self) -> Salt
        ensures { result ≡ self.now }
    {
        Salt {
            bytes: copy_of(self.bytes()),
        }
    }
}
