//! HMAC under prepared keys (RFC 2104), with the hash function of a SCRAM mechanism: a key is kept as the two states of the hash function
//! after K0 xor ipad and after K0 xor opad. Both signatures of a login then take four compressions fewer than under the keys themselves.
//!
//! The kit's hashers keep their states to themselves, so this crate has a compression function of its own for SHA-1 and for SHA-256
//! (FIPS 180-4), each proved to be that of the kit's specification. Its form follows the kit's crates `sha1` and `sha2`, whose licence
//! is in LICENSE-MIT. No call allocates or fails.
#![tactic(auto)]

mod block_sha1;
mod block_sha256;
mod compression;
mod prepared;
mod running;
mod signing;

pub use prepared::{PreparedKey, PreparedKeys, prepare};
pub use signing::{short_digest, signatures};
