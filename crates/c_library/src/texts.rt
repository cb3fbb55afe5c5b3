//! The other names that an account may act as, where C keeps them.
ghost use Rattle.c_library.specs.Logins.{texts_in};

use crate::act_as::{Bytes, is_among};
use scram_ends::OtherNames;

/// The other names that an account may act as.
#[derive(Clone, Copy)]
pub(crate) struct Texts<'a> {
    pub(crate) list: &'a [Bytes<'a>],
}

impl<'a> OtherNames for Texts<'a> {
    ghost names = { λ texts. texts_in texts.list.now };

    fn has(&self, name: &[u8]) -> bool {
        is_among(name, self.list)
    }
}
