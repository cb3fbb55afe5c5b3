//! Hi and the keys of SCRAM (RFC 5802, sections 2.2 and 3).
ghost use Rattle.std.specs.Prelude.{◌≡◌, ◌≤◌, ℕ, List, ◌++◌, length};
ghost use Rattle.mac_core.specs.Hmac.{hmac, IsPreparedFor};
ghost use Rattle.mac_core.specs.Keys.{xor_bytes, int_one, iterated, hi, client_key, stored_key, server_key};
ghost use Rattle.mac_core.specs.Keys.{password_stored_key, password_server_key};

use crate::bytes::copy_of;
use crate::digest::{HashFn, Tag};
use crate::hmac::Prepared;
use crate::mac;

/// The XOR of `a` and `b`, byte by byte. They must have the same length; the result has it too.
pub fn xor(a: &Tag, b: &Tag) -> Tag
    requires { length a.now.items ≡ length b.now.items }
    ensures value { result.items ≡ xor_bytes a.now.items b.now.items }
    ensures len { length result.items ≡ length a.now.items }
{
    let (a, b) = (a.as_slice(), b.as_slice());
    let mut bytes = Tag::new();
    for (i, x) in a.iter().enumerate() {
        bytes.push(x ^ b[i]);
    }
    bytes
}

// U1 of Hi (RFC 5802, section 2.2): the MAC of the salt followed by INT(1).
fn first_round<H: HashFn>(key: &Prepared<H>, salt: &[u8]) -> Tag
    ensures value { (str : List ℕ) → IsPreparedFor H.holds H.digest_of H.BLOCK key.now str
        → result.items ≡ hmac H.digest_of H.BLOCK str (salt.now ++ int_one) }
    ensures len { length result.items ≡ H.LEN }
{
    let mut mac = key.start();
    mac.add(salt);
    mac.add(&1u32.to_be_bytes());
    mac.done()
}

/// Hi(password, salt, count) of RFC 5802, section 2.2, of `H::LEN` bytes: PBKDF2 with HMAC and one block of output. It takes time
/// in proportion to `count`, which is at least 1.
pub fn hi<H: HashFn>(password: &[u8], salt: &[u8], count: u32) -> Tag
    requires { 1 ≤ count }
    ensures value { result.items ≡ hi H.digest_of H.BLOCK password.now salt.now count }
    ensures len { length result.items ≡ H.LEN }
{
    let key = Prepared::<H>::new(password);
    let mut last = first_round(&key, salt);
    let mut sum = copy_of(last.as_slice());
    for round in 1..count {
        last = key.mac(last.as_slice());
        sum = xor(&sum, &last);
    }
    sum
}

/// ClientKey of a SaltedPassword, HMAC(SaltedPassword, "Client Key"): `H::LEN` bytes (RFC 5802, section 3).
pub fn client_key<H: HashFn>(salted: &Tag) -> Tag
    ensures value { result.items ≡ client_key H.digest_of H.BLOCK salted.now.items }
    ensures len { length result.items ≡ H.LEN }
{
    mac::<H>(salted.as_slice(), b"Client Key")
}

/// StoredKey of a ClientKey: H(ClientKey), of `H::LEN` bytes (RFC 5802, section 3).
pub fn stored_key<H: HashFn>(client_key: &Tag) -> Tag
    ensures value { result.items ≡ stored_key H.digest_of client_key.now.items }
    ensures len { length result.items ≡ H.LEN }
{
    let mut hasher = H::start();
    hasher.add(client_key.as_slice());
    hasher.done()
}

/// ServerKey of a SaltedPassword, HMAC(SaltedPassword, "Server Key"): `H::LEN` bytes (RFC 5802, section 3).
pub fn server_key<H: HashFn>(salted: &Tag) -> Tag
    ensures value { result.items ≡ server_key H.digest_of H.BLOCK salted.now.items }
    ensures len { length result.items ≡ H.LEN }
{
    mac::<H>(salted.as_slice(), b"Server Key")
}

/// What a server stores instead of a password (RFC 5802, section 3).
#[derive(Drop)]
pub struct ScramKeys {
    /// StoredKey, with which the server checks a client's proof.
    pub stored: Tag,

    /// ServerKey, with which the server signs.
    pub server: Tag,
}

impl ScramKeys {
    /// A second value with both keys, in buffers of its own.
    pub fn copy(&self) -> ScramKeys
        ensures { result ≡ self.now }
    {
        ScramKeys {
            stored: copy_of(self.stored.as_slice()),
            server: copy_of(self.server.as_slice()),
        }
    }
}

/// The keys of `password` under `salt` and `count`, each of `H::LEN` bytes (RFC 5802, section 3). It takes time in proportion to
/// `count`, which is at least 1.
pub fn scram_keys<H: HashFn>(password: &[u8], salt: &[u8], count: u32) -> ScramKeys
    requires { 1 ≤ count }
    ensures stored { result.stored.items ≡ password_stored_key H.digest_of H.BLOCK password.now salt.now count }
    ensures server { result.server.items ≡ password_server_key H.digest_of H.BLOCK password.now salt.now count }
    ensures stored_len { length result.stored.items ≡ H.LEN }
    ensures server_len { length result.server.items ≡ H.LEN }
{
    let salted = hi::<H>(password, salt, count);
    ScramKeys {
        stored: stored_key::<H>(&client_key::<H>(&salted)),
        server: server_key::<H>(&salted),
    }
}
