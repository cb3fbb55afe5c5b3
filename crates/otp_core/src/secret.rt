//! A token's secret: the key of its codes.
ghost use Rattle.std.specs.Prelude.{◌≡◌, List, ℕ, length, MatchResult};
ghost use Rattle.otp_core.specs.Ranges.{IsSecretLength};
ghost use Rattle.otp_core.specs.declared.fault.OtpFault.TheVariants.{SecretLength};

use crate::fault::OtpFault;
use arrayvec::ArrayVec;
use mac_core::copy_of;
use std::marker::Model;

/// The least length of a secret, in bytes. RFC 4226, section 4, requires 16, but tokens with 10 are in use.
pub const MIN_SECRET_LEN: usize = 10;

/// The greatest length of a secret, in bytes.
pub const MAX_SECRET_LEN: usize = 64;

/// The key of a token's HMAC: 10 to 64 bytes. Contracts see it as the list of its bytes.
#[derive(Drop)]
pub struct Secret {
    bytes: ArrayVec<u8, MAX_SECRET_LEN>,
}

impl Model for Secret {
    ghost Value = { List ℕ };

    ghost view = { λ s. s.bytes.items };

    ghost invariant = { λ s. IsSecretLength (length s.bytes.items) };
}

impl Secret {
    /// The secret with these bytes. Errors: 40 SecretLength if and only if there are fewer than 10 or more than 64.
    pub fn new(bytes: &[u8]) -> Result<Secret, OtpFault>
        ensures { MatchResult result
            (λ secret. (secret ≡ bytes.now) × IsSecretLength (length bytes.now))
            (λ fault. (fault ≡ SecretLength) × (IsSecretLength (length bytes.now) → ⊥)) }
    {
        if bytes.len() < MIN_SECRET_LEN {
            return Err(OtpFault::SecretLength);
        }
        match ArrayVec::try_from(bytes) {
            Ok(bytes) => Ok(Secret { bytes }),
            Err(_) => Err(OtpFault::SecretLength),
        }
    }

    /// The secret's bytes, 10 to 64.
    pub fn bytes(&self) -> &[u8]
        ensures value { result.now ≡ self.now }
        ensures length { IsSecretLength (length self.now) }
    {
        self.bytes.as_slice()
    }

    /// A copy of the secret.
    pub fn copy(&self) -> Secret
        ensures { result ≡ self.now }
    {
        Secret {
            bytes: copy_of(self.bytes.as_slice()),
        }
    }
}
