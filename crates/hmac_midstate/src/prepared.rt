//! Keys that are prepared for HMAC (RFC 2104).
ghost use Rattle.std.specs.Prelude.{◌≡◌, ◌≤◌, ◌-◌, ℕ, ◌++◌, length, replicate};
ghost use Rattle.mac_core.specs.Hmac.{padded_key, xor_each};
ghost use Rattle.mac_core.specs.Mechanism.{block_len_by, digest_len_by, hash_by};
ghost use Rattle.hmac_midstate.specs.Midstate.{hash_value};
ghost use Rattle.hmac_midstate.specs.Prepared.{IsPreparedFor, value_after};

use crate::compression::{BLOCK_LEN, Words, compress, initial};
use arrayvec::ArrayVec;
use mac_core::{HSha1, HSha256, HashFn, Mechanism, Tag, copy_of};

// The byte of the inner pad, ipad (RFC 2104, section 2).
const IPAD: u8 = 0x36;

// The byte of the outer pad, opad (RFC 2104, section 2).
const OPAD: u8 = 0x5C;

// A padded key: K0 of FIPS 198-1, section 4.
type Block = ArrayVec<u8, 64>;

/// A key of HMAC with the hash function of a SCRAM mechanism, of which both padded blocks are hashed.
#[repr(C)]
#[derive(Drop)]
pub struct PreparedKey {
    /// The hash value after K0 xor ipad: eight words, of which SHA-1 has the first five.
    pub inner: [u32; 8],

    /// The hash value after K0 xor opad.
    pub outer: [u32; 8],
}

/// StoredKey and ServerKey of an account, prepared: 128 bytes.
#[repr(C)]
#[derive(Drop)]
pub struct PreparedKeys {
    /// StoredKey, prepared.
    pub stored: PreparedKey,

    /// ServerKey, prepared.
    pub server: PreparedKey,
}

/// Prepares a key, which may have any length: one longer than a block is replaced by its digest (RFC 2104, section 2).
pub fn prepare(mechanism: Mechanism, key: &[u8]) -> PreparedKey
    ensures { IsPreparedFor mechanism result key.now }
{
    let block = padded_key(mechanism, key);
    PreparedKey {
        inner: value_after(mechanism, &xor_each(&block, IPAD)),
        outer: value_after(mechanism, &xor_each(&block, OPAD)),
    }
}

// K0 of FIPS 198-1, section 4: the key, or its digest if it is longer than a block, padded with zeros to a block.
fn padded_key(mechanism: Mechanism, key: &[u8]) -> Block
    ensures value { result.items ≡ padded_key (hash_by mechanism) (block_len_by mechanism) key.now }
    ensures len { length result.items ≡ 64 }
{
    if key.len() > BLOCK_LEN {
        zero_filled(digest_of(mechanism, key).as_slice())
    } else {
        zero_filled(key)
    }
}

// The digest of a text.
fn digest_of(mechanism: Mechanism, text: &[u8]) -> Tag
    ensures value { result.items ≡ hash_by mechanism text.now }
    ensures len { length result.items ≡ digest_len_by mechanism }
{
    match mechanism {
        Mechanism::ScramSha1 => {
            let mut hasher = HSha1::start();
            hasher.add(text);
            hasher.done()
        }
        Mechanism::ScramSha256 => {
            let mut hasher = HSha256::start();
            hasher.add(text);
            hasher.done()
        }
    }
}

// At most 64 bytes, padded with zeros to 64.
fn zero_filled(bytes: &[u8]) -> Block
    requires { length bytes.now ≤ 64 }
    ensures { result.items ≡ bytes.now ++ replicate (64 - length bytes.now) 0 }
{
    let mut filled: Block = copy_of(bytes);
    for i in bytes.len()..BLOCK_LEN {
        filled.push(0);
    }
    filled
}

// Each byte of the block XORed with `byte`, as in K0 xor ipad and K0 xor opad (RFC 2104, section 2).
fn xor_each(block: &Block, byte: u8) -> Block
    ensures value { result.items ≡ xor_each byte block.now.items }
    ensures len { length result.items ≡ length block.now.items }
{
    let mut all = Block::new();
    for x in block.as_slice() {
        all.push(x ^ byte);
    }
    all
}

// The hash value after a block.
fn value_after(mechanism: Mechanism, block: &Block) -> Words
    requires { length block.now.items ≡ 64 }
    ensures { hash_value mechanism result ≡ value_after mechanism block.now.items }
{
    let mut words = initial(mechanism);
    compress(mechanism, &mut words, block.as_slice());
    words
}
