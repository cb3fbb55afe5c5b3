//! What a book keeps for an account.
use mac_core::ScramKeys;
use otp_core::Token;
use scram_text::{PlainName, Salt};
use std::marker::Model;

/// The length in bytes of a key of SCRAM-SHA-1.
pub(crate) const SHA1_KEY_LEN: usize = 20;

/// The length in bytes of a key of SCRAM-SHA-256.
pub(crate) const SHA256_KEY_LEN: usize = 32;

/// What is kept instead of a password, for one mechanism (RFC 5802, section 3).
#[derive(Drop)]
pub struct MechKeys {
    /// The salt that the keys were derived with, 1 to 64 bytes.
    pub salt: Salt,

    /// The iteration count that the keys were derived with, at least 1.
    pub count: u32,

    /// StoredKey and ServerKey: 20 bytes each for SCRAM-SHA-1, 32 for SCRAM-SHA-256.
    pub keys: ScramKeys,
}

/// An account. It may lack the keys of either mechanism, and the token.
#[derive(Drop)]
pub struct Account {
    /// The keys of SCRAM-SHA-1.
    pub sha1: Option<MechKeys>,

    /// The keys of SCRAM-SHA-256.
    pub sha256: Option<MechKeys>,

    /// The other names that the account may act as, at most 16.
    pub act_as: Vec<PlainName>,

    /// The token that judges the account's codes.
    pub token: Option<Token>,
}

impl Model for Account {
    ghost use Rattle.book_format.specs.Account.{AccountFields};

    ghost Value = { AccountFields };

    ghost view = { λ a. record { sha1 = a.sha1; sha256 = a.sha256; act_as = a.act_as.items; token = a.token } };
}
