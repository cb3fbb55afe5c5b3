//! One trait for hash functions (FIPS 180-4), and the type of their digests.
ghost use Rattle.std.specs.Prelude.{◌≡◌, ◌≤◌, ℕ, List, [], ◌++◌, length};
ghost use Rattle.std.proofs.Common.{lit≤};
ghost use Rattle.sha1.specs.Sha1.{Holds, sha1};
ghost use Rattle.sha2.specs.Hashers.{Holds256, Holds512};
ghost use Rattle.sha2.specs.Sha256.{sha256};
ghost use Rattle.sha2.specs.Sha512.{sha512};
ghost use Rattle.sha2.proofs.Facts256.{length-sha256};
ghost use Rattle.sha2.proofs.Facts512.{length-sha512};
ghost use Rattle.mac_core.specs.Digest.{length-sha1};

use crate::bytes::copy_of;
use arrayvec::ArrayVec;
use sha1::Sha1;
use sha2::{Digest, Sha256, Sha512};

// The longest digest of the hash functions here, that of SHA-512, in bytes.
const MAX_DIGEST_LEN: usize = 64;

// The longest block of the hash functions here, that of SHA-512, in bytes.
pub(crate) const MAX_BLOCK_LEN: usize = 128;

/// A digest, a MAC or a key: at most 64 bytes, in a fixed buffer.
pub type Tag = ArrayVec<u8, MAX_DIGEST_LEN>;

/// A hash function. A value of the type is a running hash of a message that is added piece by piece.
///
/// A value does not keep its message, so its contracts say which messages it stands for: `start` stands for the empty one, `add`
/// appends the piece to each, and `done` returns the digest of each.
pub trait HashFn: Drop {
    // The digest of a message.
    ghost digest_of: { List ℕ → List ℕ };

    // The value stands for this message.
    ghost holds: { Self → List ℕ → Type 0 };

    ghost LEN: { ℕ };

    ghost BLOCK: { ℕ };

    /// The length of a digest in bytes, 20 to 64.
    const LEN: usize;

    /// The length of a block in bytes, from `LEN` to 128: HMAC pads its key to it.
    const BLOCK: usize;

    /// A value that stands for the empty message.
    fn start() -> Self
        ensures { holds result [] };

    /// Adds `piece` to the end of the message.
    fn add(&mut self, piece: &[u8])
        ensures { (message : List ℕ) → holds self.old message → holds self.new (message ++ piece.now) };

    /// The digest of the message, of `LEN` bytes.
    fn done(self) -> Tag
        ensures value { (message : List ℕ) → holds self message → result.items ≡ digest_of message }
        ensures len { length result.items ≡ LEN };

    /// A second value that stands for the same message.
    fn copy(&self) -> Self
        ensures { (message : List ℕ) → holds self.now message → holds result message };

    // Each digest has LEN bytes.
    ghost digest_len: { (message : List ℕ) → length (digest_of message) ≡ LEN };

    ghost least_len: { 20 ≤ LEN };

    ghost most_len: { LEN ≤ 64 };

    ghost least_block: { LEN ≤ BLOCK };

    ghost most_block: { BLOCK ≤ 128 };
}

/// SHA-1: digests of 20 bytes, blocks of 64.
#[derive(Drop)]
pub struct HSha1 {
    hasher: Sha1,
}

impl HashFn for HSha1 {
    ghost digest_of = { sha1 };

    ghost holds = { λ s message. Holds s.hasher message };

    ghost LEN = { 20 };

    ghost BLOCK = { 64 };

    const LEN: usize = 20;

    const BLOCK: usize = 64;

    fn start() -> HSha1 {
        HSha1 {
            hasher: Sha1::new(),
        }
    }

    fn add(&mut self, piece: &[u8]) {
        self.hasher.update(piece);
    }

    fn done(self) -> Tag {
        copy_of(&self.hasher.finalize())
    }

    fn copy(&self) -> HSha1 {
        let Ok(hasher) = self.hasher.clone() else {
            unreachable!()
        };
        HSha1 { hasher }
    }

    ghost digest_len = { length-sha1 };

    ghost least_len = { lit≤ tt };

    ghost most_len = { lit≤ tt };

    ghost least_block = { lit≤ tt };

    ghost most_block = { lit≤ tt };
}

/// SHA-256: digests of 32 bytes, blocks of 64.
#[derive(Drop)]
pub struct HSha256 {
    hasher: Sha256,
}

impl HashFn for HSha256 {
    ghost digest_of = { sha256 };

    ghost holds = { λ s message. Holds256 s.hasher message };

    ghost LEN = { 32 };

    ghost BLOCK = { 64 };

    const LEN: usize = 32;

    const BLOCK: usize = 64;

    fn start() -> HSha256 {
        HSha256 {
            hasher: Sha256::new(),
        }
    }

    fn add(&mut self, piece: &[u8]) {
        self.hasher.update(piece);
    }

    fn done(self) -> Tag {
        copy_of(&self.hasher.finalize())
    }

    fn copy(&self) -> HSha256 {
        let Ok(hasher) = self.hasher.clone() else {
            unreachable!()
        };
        HSha256 { hasher }
    }

    ghost digest_len = { length-sha256 };

    ghost least_len = { lit≤ tt };

    ghost most_len = { lit≤ tt };

    ghost least_block = { lit≤ tt };

    ghost most_block = { lit≤ tt };
}

/// SHA-512: digests of 64 bytes, blocks of 128.
#[derive(Drop)]
pub struct HSha512 {
    hasher: Sha512,
}

impl HashFn for HSha512 {
    ghost digest_of = { sha512 };

    ghost holds = { λ s message. Holds512 s.hasher message };

    ghost LEN = { 64 };

    ghost BLOCK = { 128 };

    const LEN: usize = 64;

    const BLOCK: usize = 128;

    fn start() -> HSha512 {
        HSha512 {
            hasher: Sha512::new(),
        }
    }

    fn add(&mut self, piece: &[u8]) {
        self.hasher.update(piece);
    }

    fn done(self) -> Tag {
        copy_of(&self.hasher.finalize())
    }

    fn copy(&self) -> HSha512 {
        let Ok(hasher) = self.hasher.clone() else {
            unreachable!()
        };
        HSha512 { hasher }
    }

    ghost digest_len = { length-sha512 };

    ghost least_len = { lit≤ tt };

    ghost most_len = { lit≤ tt };

    ghost least_block = { lit≤ tt };

    ghost most_block = { lit≤ tt };
}
