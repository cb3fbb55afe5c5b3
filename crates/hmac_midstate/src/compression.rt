//! A mechanism's compression function, over hash values in eight words, of which SHA-1 has five.
ghost use Rattle.std.specs.Prelude.{◌≡◌, ◌≤◌, ◌*◌, ℕ, length, take};
ghost use Rattle.mac_core.specs.Mechanism.{digest_len_by};
ghost use Rattle.sha2.specs.Sha256.{digest_bytes};
ghost use Rattle.hmac_midstate.specs.Midstate.{compressed, digest_of, hash_value, initial_value};

use crate::{block_sha1, block_sha256};
use mac_core::{Mechanism, Tag, copy_of};

/// The length of a block in bytes.
pub(crate) const BLOCK_LEN: usize = 64;

/// A hash value in eight words. SHA-1 has the first five.
pub(crate) type Words = [u32; 8];

/// H(0) of the mechanism.
pub(crate) fn initial(mechanism: Mechanism) -> Words
    ensures { hash_value mechanism result ≡ initial_value mechanism }
{
    match mechanism {
        Mechanism::ScramSha1 => block_sha1::INITIAL,
        Mechanism::ScramSha256 => block_sha256::INITIAL,
    }
}

/// Compresses a block of 64 bytes into the hash value.
pub(crate) fn compress(mechanism: Mechanism, words: &mut Words, block: &[u8])
    requires { length block.now ≡ 64 }
    ensures { hash_value mechanism words.new ≡ compressed mechanism (hash_value mechanism words.old) block.now }
{
    match mechanism {
        Mechanism::ScramSha1 => block_sha1::add_rounds(words, &block_sha1::schedule(block)),
        Mechanism::ScramSha256 => block_sha256::add_rounds(words, &block_sha256::schedule(block)),
    }
}

/// Compresses a block of 64 bytes into both hash values. Its schedule is computed once.
pub(crate) fn compress_both(mechanism: Mechanism, one: &mut Words, other: &mut Words, block: &[u8])
    requires { length block.now ≡ 64 }
    ensures one { hash_value mechanism one.new ≡ compressed mechanism (hash_value mechanism one.old) block.now }
    ensures other { hash_value mechanism other.new ≡ compressed mechanism (hash_value mechanism other.old) block.now }
{
    match mechanism {
        Mechanism::ScramSha1 => {
            let w = block_sha1::schedule(block);
            block_sha1::add_rounds(one, &w);
            block_sha1::add_rounds(other, &w);
        }
        Mechanism::ScramSha256 => {
            let w = block_sha256::schedule(block);
            block_sha256::add_rounds(one, &w);
            block_sha256::add_rounds(other, &w);
        }
    }
}

// The bytes of at most eight words, high byte first.
fn bytes_of(words: &[u32]) -> Tag
    requires { length words.now ≤ 8 }
    ensures { result.items ≡ digest_bytes words.now (length words.now) }
{
    let mut bytes = [0u8; 32];
    'words: for i in 0..words.len() {
        bytes[4 * i..4 * i + 4].copy_from_slice(&words[i].to_be_bytes());
    }
    copy_of(&bytes[..4 * words.len()])
}

/// The digest that a last hash value is: 20 bytes for SHA-1, 32 for SHA-256.
pub(crate) fn digest(mechanism: Mechanism, words: &Words) -> Tag
    ensures value { result.items ≡ digest_of mechanism (hash_value mechanism words.now) }
    ensures len { length result.items ≡ digest_len_by mechanism }
{
    match mechanism {
        Mechanism::ScramSha1 => bytes_of(&words[..5]),
        Mechanism::ScramSha256 => bytes_of(words),
    }
}
