//! The name to act as that a client asks for.
ghost use Rattle.std.specs.Prelude.{◌≡◌, ℕ, List, Contains, ◌↔◌, IsTrue};
ghost use Rattle.std.specs.declared.option.Option.{Option};
ghost use Rattle.scram_text.specs.Messages.{ClientFirstParts, IsClientFirst};
ghost use Rattle.scram_ends.specs.Opening.{IsTakenUp};
ghost use Rattle.c_library.specs.declared.act_as.Bytes.{Bytes};

use scram_text::{PlainName, read_client_first};

/// Bytes of the caller: in C a pointer and a length.
#[repr(C)]
#[derive(Drop)]
pub struct Bytes<'a> {
    pub at: &'a [u8],
}

/// The name to act as in a client-first message that a server takes up, or None if it asks for none.
pub(crate) fn authzid_of(client_first: &[u8]) -> Option<PlainName>
    ensures { (first : ClientFirstParts) (name : List ℕ) (authzid : Option (List ℕ)) → IsClientFirst client_first.now first
        → IsTakenUp first name authzid → result ≡ authzid }
{
    let Ok(first) = read_client_first(client_first) else {
        return None;
    };
    match &first.authzid {
        Some(spelled) => spelled.plain(),
        None => None,
    }
}

/// Whether the name is one of these.
pub(crate) fn is_among(name: &[u8], names: &[Bytes<'_>]) -> bool
    ensures { IsTrue result ↔ ((bytes : Bytes) × Contains names.now bytes × (bytes.at.now ≡ name.now)) }
{
    names.iter().any(|other| other.at == name)
}
