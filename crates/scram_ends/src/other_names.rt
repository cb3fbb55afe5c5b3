//! The other names that an account may act as, in any form.
ghost use Rattle.std.specs.Prelude.{◌↔◌, ℕ, List, IsTrue};
ghost use Rattle.std.specs.List.{Contains};

use crate::server::is_among;
use scram_text::PlainName;

/// The other names that an account may act as. Contracts know the list of them.
pub trait OtherNames: Drop {
    ghost names: { Self → List (List ℕ) };

    /// Whether the name, in plain bytes, is one of them.
    fn has(&self, name: &[u8]) -> bool
        ensures { IsTrue result ↔ Contains (names self.now) name.now };
}

impl<'a> OtherNames for &'a [PlainName] {
    ghost names = { λ list. list.now };

    fn has(&self, name: &[u8]) -> bool {
        is_among(name, self)
    }
}
