//! Keys of an account in any form that signs, and the plain form.
ghost use Rattle.std.specs.Prelude.{◌≡◌, ◌↔◌, length, IsTrue};
ghost use Rattle.mac_core.specs.Mechanism.{digest_len_by, hmac_by, stored_key_by};
ghost use Rattle.mac_core.specs.declared.mechanism.Mechanism.{Mechanism};
ghost use Rattle.scram_ends.specs.Entry.{Keys};
ghost use Rattle.scram_ends.specs.Auth.{client_signature, server_signature};
ghost use Rattle.scram_ends.specs.SigningKeys.{auth_text};

use crate::auth_message::AuthMessage;
use crate::bytes::are_same;
use mac_core::{Mechanism, ScramKeys, ScramMac, Tag};

/// The two signatures of an AuthMessage (RFC 5802, section 3), each as long as the mechanism's digests.
#[derive(Drop)]
pub struct Signatures {
    /// ClientSignature = HMAC(StoredKey, AuthMessage).
    pub client: Tag,

    /// ServerSignature = HMAC(ServerKey, AuthMessage).
    pub server: Tag,
}

/// The keys of an account for one mechanism, StoredKey and ServerKey, in any form that signs with them.
///
/// `IsFor` says for which mechanism and keys a value stands. A value may stand for none: then only the lengths are promised.
pub trait SigningKeys: Drop {
    ghost IsFor: { Self → Mechanism → Keys → Type 0 };

    /// Both signatures of the message. They are asked for together, so that a form of keys can compute them in one pass.
    fn signatures(&self, mechanism: Mechanism, message: &AuthMessage<'_>) -> Signatures
        ensures client { (keys : Keys) → IsFor self.now mechanism keys
            → result.client.items ≡ client_signature mechanism keys (auth_text message.now) }
        ensures server { (keys : Keys) → IsFor self.now mechanism keys
            → result.server.items ≡ server_signature mechanism keys (auth_text message.now) }
        ensures client_len { length result.client.items ≡ digest_len_by mechanism }
        ensures server_len { length result.server.items ≡ digest_len_by mechanism };

    /// Whether StoredKey = H(`client_key`), for a ClientKey as long as the mechanism's digests. The steps are the same whichever byte
    /// differs.
    fn is_stored(&self, mechanism: Mechanism, client_key: &Tag) -> bool
        requires { length client_key.now.items ≡ digest_len_by mechanism }
        ensures { (keys : Keys) → IsFor self.now mechanism keys
            → (IsTrue result ↔ (stored_key_by mechanism client_key.now.items ≡ keys.stored)) };
}

/// The bytes of both keys, wherever they lie.
#[derive(Clone, Copy)]
pub struct KeyBytes<'a> {
    /// StoredKey.
    pub stored: &'a [u8],

    /// ServerKey.
    pub server: &'a [u8],
}

impl<'a> KeyBytes<'a> {
    /// The bytes of these keys.
    pub fn of(keys: &'a ScramKeys) -> KeyBytes<'a>
        ensures stored { result.stored.now ≡ keys.now.stored.items }
        ensures server { result.server.now ≡ keys.now.server.items }
    {
        KeyBytes {
            stored: keys.stored.as_slice(),
            server: keys.server.as_slice(),
        }
    }
}

impl<'a> SigningKeys for KeyBytes<'a> {
    ghost IsFor = { λ bytes mechanism keys. (bytes.stored.now ≡ keys.stored) × (bytes.server.now ≡ keys.server) };

    fn signatures(&self, mechanism: Mechanism, message: &AuthMessage<'_>) -> Signatures {
        Signatures {
            client: signature(mechanism, self.stored, message),
            server: signature(mechanism, self.server, message),
        }
    }

    fn is_stored(&self, mechanism: Mechanism, client_key: &Tag) -> bool {
        are_same(mechanism.stored_key(client_key).as_slice(), self.stored)
    }
}

// The HMAC of the message under this key.
fn signature(mechanism: Mechanism, key: &[u8], message: &AuthMessage<'_>) -> Tag
    ensures value { result.items ≡ hmac_by mechanism key.now (auth_text message.now) }
    ensures len { length result.items ≡ digest_len_by mechanism }
{
    let mut mac = ScramMac::new(mechanism, key);
    mac.add(message.bare);
    mac.add(b",");
    mac.add(message.server_first);
    mac.add(b",");
    mac.add(message.without_proof);
    mac.done()
}
