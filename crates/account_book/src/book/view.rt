//! What a SCRAM server sees for a name.
ghost use Rattle.std.specs.Prelude.{◌≡◌, ◌≤◌, length, option_copied, IfSome};
ghost use Rattle.mac_core.specs.Mechanism.{digest_len_by};
ghost use Rattle.scram_ends.specs.Entry.{entry_of};
ghost use Rattle.book_format.specs.Account.{AreKeys, IsAccount};
ghost use Rattle.account_book.specs.View.{decoy_entry, decoy_salt, entry_in, mech_keys};

use crate::book::Book;
use book_format::{Account, MechKeys};
use mac_core::{HSha256, Mac, Mechanism};
use scram_ends::KeysView;
use scram_text::{PlainName, Salt};

/// The length in bytes of a decoy's salt, and so of each salt that is made for an account: if the lengths differed, a client could
/// tell the two apart.
pub const SALT_LEN: usize = 16;

impl Book {
    /// What a server keeps for this name and this mechanism: the account of the name if it has keys for the mechanism, else a
    /// decoy. A decoy's salt is the first 16 bytes of the HMAC-SHA-256, under the decoy key, of the mechanism's name, a NUL and the
    /// name: so a name has the same salt each time.
    pub fn view(&self, name: &PlainName, mechanism: Mechanism) -> KeysView<'_>
        ensures entry { entry_of result ≡ entry_in self.now mechanism name.now }
        ensures count { 1 ≤ result.count }
        ensures len { IfSome result.keys (λ keys. (length keys.stored.items ≡ digest_len_by mechanism)
            × (length keys.server.items ≡ digest_len_by mechanism)) }
    {
        let Some(account) = self.account(name) else {
            return self.decoy(name, mechanism);
        };
        let Some(keys) = keys_for(account, mechanism) else {
            return self.decoy(name, mechanism);
        };
        KeysView {
            salt: keys.salt.copy(),
            count: keys.count,
            keys: Some(keys.keys.copy()),
            act_as: account.act_as.as_slice(),
        }
    }

    // What a server keeps for a name that has no keys for the mechanism.
    fn decoy(&self, name: &PlainName, mechanism: Mechanism) -> KeysView<'_>
        ensures entry { entry_of result ≡ decoy_entry self.now mechanism name.now }
        ensures count { 1 ≤ result.count }
        ensures keys { result.keys ≡ None }
    {
        KeysView {
            salt: self.decoy_salt(name, mechanism),
            count: self.contents.decoy_count,
            keys: None,
            act_as: &[],
        }
    }

    // The salt of a name's decoy, which `view` describes.
    fn decoy_salt(&self, name: &PlainName, mechanism: Mechanism) -> Salt
        ensures { result ≡ decoy_salt self.now mechanism name.now }
    {
        let mut mac = Mac::<HSha256>::new(&self.contents.decoy_key);
        mac.add(mechanism.name().as_bytes());
        mac.add(&[0]);
        mac.add(name.bytes());
        let tag = mac.done();
        let Some(salt) = Salt::new(&tag.as_slice()[..SALT_LEN]) else {
            unreachable!()
        };
        salt
    }
}

// The account's keys for a mechanism, or None if it has none.
fn keys_for(account: &Account, mechanism: Mechanism) -> Option<&MechKeys>
    requires { IsAccount account.now }
    ensures value { option_copied result ≡ mech_keys mechanism account.now }
    ensures range { IfSome result (λ keys. AreKeys (digest_len_by mechanism) keys.now) }
{
    match mechanism {
        Mechanism::ScramSha1 => account.sha1.as_ref(),
        Mechanism::ScramSha256 => account.sha256.as_ref(),
    }
}
