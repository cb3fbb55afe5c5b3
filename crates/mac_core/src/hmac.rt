//! HMAC (RFC 2104), over a text that is added piece by piece, or with a key that is prepared once.
ghost use Rattle.std.specs.Prelude.{◌≡◌, ◌-◌, ◌≤◌, ℕ, List, [], ◌++◌, length, replicate};
ghost use Rattle.mac_core.specs.Hmac.{xor_each, padded_key, hmac, IsMacOf, IsPreparedFor};

use crate::bytes::copy_of;
use crate::digest::{HashFn, MAX_BLOCK_LEN, Tag};
use arrayvec::ArrayVec;

// The byte of the inner pad, ipad (RFC 2104, section 2).
const IPAD: u8 = 0x36;

// The byte of the outer pad, opad (RFC 2104, section 2).
const OPAD: u8 = 0x5C;

// A padded key: K0 of FIPS 198-1, section 4.
type Block = ArrayVec<u8, MAX_BLOCK_LEN>;

// The key, padded with zeros to the length of a block. It must not be longer than a block.
fn zero_filled(key: &[u8], block: usize) -> Block
    requires fits { length key.now ≤ block }
    requires most { block ≤ MAX_BLOCK_LEN }
    ensures { result.items ≡ key.now ++ replicate (block - length key.now) 0 }
{
    let mut filled: Block = copy_of(key);
    for i in key.len()..block {
        filled.push(0);
    }
    filled
}

// K0 of FIPS 198-1, section 4: the key, padded with zeros to a block. A key longer than a block is hashed first.
fn padded_key<H: HashFn>(key: &[u8]) -> Block
    ensures { result.items ≡ padded_key H.digest_of H.BLOCK key.now }
{
    if key.len() > H::BLOCK {
        let mut hasher = H::start();
        hasher.add(key);
        zero_filled(hasher.done().as_slice(), H::BLOCK)
    } else {
        zero_filled(key, H::BLOCK)
    }
}

// Each byte of the block XORed with `byte`, as in K0 xor ipad and K0 xor opad (RFC 2104, section 2).
fn xor_each(block: &Block, byte: u8) -> Block
    ensures { result.items ≡ xor_each byte block.now.items }
{
    let mut all = Block::new();
    for x in block.as_slice() {
        all.push(x ^ byte);
    }
    all
}

/// A running HMAC. It stands for a key and the text added so far.
#[derive(Drop)]
pub struct Mac<H> {
    inner: H,
    outer: H,
}

impl<H: HashFn> Mac<H> {
    /// A MAC of the empty text under `key`, which may have any length: one longer than a block is replaced by its digest (RFC 2104,
    /// section 2).
    pub fn new(key: &[u8]) -> Self
        ensures { IsMacOf H.holds H.digest_of H.BLOCK result key.now [] }
    {
        let key = padded_key::<H>(key);
        let mut inner = H::start();
        inner.add(xor_each(&key, IPAD).as_slice());
        let mut outer = H::start();
        outer.add(xor_each(&key, OPAD).as_slice());
        Mac { inner, outer }
    }

    /// Adds `piece` to the end of the text.
    pub fn add(&mut self, piece: &[u8])
        ensures { (key text : List ℕ) → IsMacOf H.holds H.digest_of H.BLOCK self.old key text
            → IsMacOf H.holds H.digest_of H.BLOCK self.new key (text ++ piece.now) }
    {
        self.inner.add(piece);
    }

    /// A second MAC for the same key and text.
    pub fn copy(&self) -> Self
        ensures { (key text : List ℕ) → IsMacOf H.holds H.digest_of H.BLOCK self.now key text
            → IsMacOf H.holds H.digest_of H.BLOCK result key text }
    {
        Mac {
            inner: self.inner.copy(),
            outer: self.outer.copy(),
        }
    }

    /// The HMAC of the text under the key, of `H::LEN` bytes.
    pub fn done(self) -> Tag
        ensures value { (key text : List ℕ) → IsMacOf H.holds H.digest_of H.BLOCK self key text
            → result.items ≡ hmac H.digest_of H.BLOCK key text }
        ensures len { length result.items ≡ H.LEN }
    {
        let Mac { inner, mut outer } = self;
        outer.add(inner.done().as_slice());
        outer.done()
    }
}

/// An HMAC key whose two padded blocks are already hashed, so that a MAC of a short text takes two compressions instead of four.
#[derive(Drop)]
pub struct Prepared<H> {
    empty: Mac<H>,
}

impl<H: HashFn> Prepared<H> {
    /// Prepares `key`, which may have any length.
    pub fn new(key: &[u8]) -> Self
        ensures { IsPreparedFor H.holds H.digest_of H.BLOCK result key.now }
    {
        Prepared {
            empty: Mac::new(key),
        }
    }

    /// A running MAC of the empty text under the key.
    pub fn start(&self) -> Mac<H>
        ensures { (key : List ℕ) → IsPreparedFor H.holds H.digest_of H.BLOCK self.now key
            → IsMacOf H.holds H.digest_of H.BLOCK result key [] }
    {
        self.empty.copy()
    }

    /// The HMAC of `text` under the key, of `H::LEN` bytes.
    pub fn mac(&self, text: &[u8]) -> Tag
        ensures value { (key : List ℕ) → IsPreparedFor H.holds H.digest_of H.BLOCK self.now key
            → result.items ≡ hmac H.digest_of H.BLOCK key text.now }
        ensures len { length result.items ≡ H.LEN }
    {
        let mut mac = self.start();
        mac.add(text);
        mac.done()
    }
}
