//! The hash function of a token, chosen at run time.
ghost use Rattle.std.specs.Prelude.{◌≡◌, ◌≢◌, IfSome, IfNone};
ghost use Rattle.otp_core.specs.Hash.{hash_name, hash_named, hotp_text_by};

use crate::code::{Code, hotp};
use crate::digits::Digits;
use crate::secret::Secret;
use mac_core::{HSha1, HSha256, HSha512};

/// A hash function of TOTP (RFC 6238, section 1.2). HOTP uses SHA-1 only.
#[derive(Clone, Copy, Debug, PartialEq, Eq)]
pub enum OtpHash {
    /// SHA-1, as in RFC 4226.
    Sha1,

    /// SHA-256.
    Sha256,

    /// SHA-512.
    Sha512,
}

impl OtpHash {
    /// The hash function's name: `sha1`, `sha256` or `sha512`.
    pub fn name(self) -> &'static str
        ensures { result.now ≡ hash_name self }
    {
        match self {
            OtpHash::Sha1 => "sha1",
            OtpHash::Sha256 => "sha256",
            OtpHash::Sha512 => "sha512",
        }
    }

    /// The hash function with this name, or None if there is none.
    pub fn of_name(name: &str) -> Option<OtpHash>
        ensures value { result ≡ hash_named name.now }
        ensures some { IfSome result (λ hash. name.now ≡ hash_name hash) }
        ensures none { IfNone result ((hash : OtpHash) → name.now ≢ hash_name hash) }
    {
        if name == OtpHash::Sha1.name() {
            Some(OtpHash::Sha1)
        } else if name == OtpHash::Sha256.name() {
            Some(OtpHash::Sha256)
        } else if name == OtpHash::Sha512.name() {
            Some(OtpHash::Sha512)
        } else {
            None
        }
    }

    /// The HOTP value of `counter` under `secret` (RFC 4226, section 5.3), with this hash function.
    pub fn hotp(self, secret: &Secret, counter: u64, digits: Digits) -> Code
        ensures { result ≡ hotp_text_by self digits secret.now counter }
    {
        match self {
            OtpHash::Sha1 => hotp::<HSha1>(secret, counter, digits),
            OtpHash::Sha256 => hotp::<HSha256>(secret, counter, digits),
            OtpHash::Sha512 => hotp::<HSha512>(secret, counter, digits),
        }
    }
}
