//! MACs under prepared keys.
ghost use Rattle.std.specs.Prelude.{◌≡◌, ◌≤◌, ◌-◌, ◌%◌, ℕ, List, [], ◌∷◌, ◌++◌, length, replicate};
ghost use Rattle.std.specs.Int.{to_be_bytes, w64};
ghost use Rattle.std.specs.Str.{byte};
ghost use Rattle.mac_core.specs.Hmac.{inner_block};
ghost use Rattle.mac_core.specs.Mechanism.{block_len_by, digest_len_by, hash_by, hmac_by};
ghost use Rattle.hmac_midstate.specs.Midstate.{IsReading, hash_value, last_value};
ghost use Rattle.hmac_midstate.specs.Prepared.{IsPreparedFor};

use crate::compression::{Words, compress, digest, initial};
use crate::prepared::{PreparedKey, PreparedKeys};
use crate::running::{Running, padding};
use arrayvec::ArrayVec;
use mac_core::{Mechanism, Tag, copy_of};

/// HMAC(StoredKey, AuthMessage) and HMAC(ServerKey, AuthMessage) under prepared keys. AuthMessage is the three messages with commas
/// between them (RFC 5802, section 3): client-first-message-bare, server-first-message and client-final-message-without-proof.
///
/// Both have 20 bytes in SCRAM-SHA-1, 32 in SCRAM-SHA-256.
pub fn signatures(
    mechanism: Mechanism,
    keys: &PreparedKeys,
    bare: &[u8],
    server_first: &[u8],
    without_proof: &[u8],
) -> (Tag, Tag)
    ensures stored { (key : List ℕ) → IsPreparedFor mechanism keys.now.stored key → result.0.items
        ≡ hmac_by mechanism key (bare.now ++ byte "," ∷ [] ++ server_first.now ++ byte "," ∷ [] ++ without_proof.now) }
    ensures server { (key : List ℕ) → IsPreparedFor mechanism keys.now.server key → result.1.items
        ≡ hmac_by mechanism key (bare.now ++ byte "," ∷ [] ++ server_first.now ++ byte "," ∷ [] ++ without_proof.now) }
    ensures stored_len { length result.0.items ≡ digest_len_by mechanism }
    ensures server_len { length result.1.items ≡ digest_len_by mechanism }
{
    let mut running = Running {
        one: keys.stored.inner,
        other: keys.server.inner,
        buffer: [0; 64],
        total: 64,
    };
    running.add(mechanism, bare);
    running.add(mechanism, b",");
    running.add(mechanism, server_first);
    running.add(mechanism, b",");
    running.add(mechanism, without_proof);
    running.pad(mechanism);
    (
        outer_digest(mechanism, &keys.stored, &running.one),
        outer_digest(mechanism, &keys.server, &running.other),
    )
}

// The outer digest of HMAC under this key, from the last hash value of the inner hash.
fn outer_digest(mechanism: Mechanism, key: &PreparedKey, inner: &Words) -> Tag
    ensures value { (bytes text : List ℕ) → IsPreparedFor mechanism key.now bytes
        → hash_value mechanism inner.now ≡ last_value mechanism (inner_block (hash_by mechanism) (block_len_by mechanism) bytes ++ text)
        → result.items ≡ hmac_by mechanism bytes text }
    ensures len { length result.items ≡ digest_len_by mechanism }
{
    last_digest(
        mechanism,
        key.outer,
        64,
        digest(mechanism, inner).as_slice(),
    )
}

// The digest of a message that ends with `text`, from the hash value after the whole blocks before it, which have `before` bytes.
fn last_digest(mechanism: Mechanism, words: Words, before: u64, text: &[u8]) -> Tag
    requires short { length text.now ≤ 55 }
    requires most { before ≤ 64 }
    requires whole { before % 64 ≡ 0 }
    ensures value { (message : List ℕ) → IsReading mechanism words [] before message
        → result.items ≡ hash_by mechanism (message ++ text.now) }
    ensures len { length result.items ≡ digest_len_by mechanism }
{
    let block = last_block(text, (before + text.len() as u64) * 8);
    let mut words = words;
    compress(mechanism, &mut words, block.as_slice());
    digest(mechanism, &words)
}

// The last block of a message, which ends with `text` and has `bit_len` bits (FIPS 180-4, section 5.1.1).
fn last_block(text: &[u8], bit_len: u64) -> ArrayVec<u8, 64>
    requires { length text.now ≤ 55 }
    ensures value { result.items ≡ text.now ++ (0x80 ∷ replicate (55 - length text.now) 0 ++ to_be_bytes w64 bit_len) }
    ensures len { length result.items ≡ 64 }
{
    let mut block = copy_of(text);
    let Ok(()) = block.try_extend_from_slice(padding(text.len())) else {
        unreachable!()
    };
    let Ok(()) = block.try_extend_from_slice(&bit_len.to_be_bytes()) else {
        unreachable!()
    };
    block
}

/// The digest of a text of at most 55 bytes with the mechanism's hash function, as of a ClientKey, whose digest is StoredKey (RFC 5802,
/// section 3): 20 bytes in SCRAM-SHA-1, 32 in SCRAM-SHA-256.
pub fn short_digest(mechanism: Mechanism, text: &[u8]) -> Tag
    requires { length text.now ≤ 55 }
    ensures value { result.items ≡ hash_by mechanism text.now }
    ensures len { length result.items ≡ digest_len_by mechanism }
{
    last_digest(mechanism, initial(mechanism), 0, text)
}
