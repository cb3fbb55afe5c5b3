//! HMAC (RFC 2104), Hi and the SCRAM keys (RFC 5802), over SHA-1, SHA-256 and SHA-512.
//!
//! The contract of each function that makes a MAC, a key or Hi says that its result is the RFC's formula applied to its arguments. No
//! call allocates or fails.
//!
//! ```rust
//! use mac_core::{HSha256, hi, scram_keys};
//!
//! let keys = scram_keys::<HSha256>(b"pencil", b"a salt", 4096);
//! assert_eq!(rt; keys.stored.len(), 32);
//! ```
#![tactic(auto)]

ghost use Rattle.std.specs.Prelude.{◌≡◌, length};
ghost use Rattle.mac_core.specs.Hmac.{hmac};

mod bytes;
mod digest;
mod hmac;
mod keys;
mod mechanism;

pub use bytes::{copy_of, law_of_bytes};
pub use digest::{HSha1, HSha256, HSha512, HashFn, Tag};
pub use hmac::{Mac, Prepared};
pub use keys::{ScramKeys, client_key, hi, scram_keys, server_key, stored_key, xor};
pub use mechanism::{Mechanism, ScramMac};

/// The HMAC of `text` under `key`, of `H::LEN` bytes. The key may have any length: one longer than a block is replaced by its
/// digest (RFC 2104, section 2).
pub fn mac<H: HashFn>(key: &[u8], text: &[u8]) -> Tag
    ensures value { result.items ≡ hmac H.digest_of H.BLOCK key.now text.now }
    ensures len { length result.items ≡ H.LEN }
{
    let mut mac = Mac::<H>::new(key);
    mac.add(text);
    mac.done()
}
