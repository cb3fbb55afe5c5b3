//! Keys of accounts, kept ready from one recorded login to the next.
ghost use Rattle.std.specs.Prelude.{◌≡◌};
ghost use Rattle.scram_text.specs.Messages.{ClientFirstParts, client_first_bare};
ghost use Rattle.scram_ends.specs.Entry.{keys_of, entry_of};
ghost use Rattle.scram_ends.specs.Auth.{auth_to_challenge};
ghost use Rattle.scram_ends.specs.Standing.{IsSigning, IsSigningFor};

use crate::keys_view::KeysView;
use crate::signing::{ReadyKeys, Signing};
use mac_core::{Mechanism, ScramKeys};

/// The keys of the last login by each mechanism, ready for a next login with the same keys, in which `ServerWait::recorded_with` then hashes
/// four blocks less. No result depends on them.
#[derive(Drop)]
pub struct KeptKeys {
    // By SCRAM-SHA-1.
    sha1: Option<ReadyKeys>,
    // By SCRAM-SHA-256.
    sha256: Option<ReadyKeys>,
}

impl KeptKeys {
    /// No keys.
    pub fn none() -> KeptKeys
        ensures sha1 { result.sha1 ≡ None }
        ensures sha256 { result.sha256 ≡ None }
    {
        KeptKeys {
            sha1: None,
            sha256: None,
        }
    }

    /// The account's keys for a login with this bare client-first message and this server-first message, or None if the account has no
    /// keys. Keeps the keys.
    pub(crate) fn signing_for(
        &mut self,
        mechanism: Mechanism,
        view: &KeysView<'_>,
        bare: &[u8],
        server_first: &[u8],
    ) -> Option<Signing>
        ensures { (first : ClientFirstParts) → bare.now ≡ client_first_bare first
            → IsSigningFor result mechanism (entry_of view.now).keys (auth_to_challenge first server_first.now) }
    {
        match &view.keys {
            None => None,
            Some(keys) => match mechanism {
                Mechanism::ScramSha1 => {
                    Some(signing_with(&mut self.sha1, mechanism, keys, bare, server_first))
                }
                Mechanism::ScramSha256 => {
                    Some(signing_with(&mut self.sha256, mechanism, keys, bare, server_first))
                }
            },
        }
    }
}

// As `Signing::new`. Takes the keys that are kept, if they are these, and else keeps these.
fn signing_with(
    kept: &mut Option<ReadyKeys>,
    mechanism: Mechanism,
    keys: &ScramKeys,
    bare: &[u8],
    server_first: &[u8],
) -> Signing
    ensures { (first : ClientFirstParts) → bare.now ≡ client_first_bare first
        → IsSigning result mechanism (keys_of keys.now) (auth_to_challenge first server_first.now) }
{
    match kept {
        Some(ready) if ready.are_of(mechanism, keys) => ready.signing(bare, server_first),
        _ => {
            let ready = ReadyKeys::new(mechanism, keys);
            let signing = ready.signing(bare, server_first);
            *kept = Some(ready);
            signing
        }
    }
}
