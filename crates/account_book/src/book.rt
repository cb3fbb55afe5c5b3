//! An account book: accounts by their names, and what decoys are derived from.
ghost use Rattle.std.specs.Prelude.{◌≡◌, ◌≤◌, [], length, is_some, option_copied, IfSome};
ghost use Rattle.std.specs.FinMap as map;
ghost use Rattle.book_format.specs.Account.{IsAccount, max_names};
ghost use Rattle.book_format.specs.Book.{IsBook};
ghost use Rattle.account_book.specs.Accounts.{account_at, account_map, with_act_as, IsChanged, IsRemoved};

mod enrol;
mod text;
mod tokens;
mod view;

use book_format::{Account, Contents};
pub use enrol::EnrolFault;
use scram_text::PlainName;
use std::alloc::Global;
use std::collections::BTreeMap;
use std::marker::Model;
pub use view::SALT_LEN;

/// An account book. Contracts see its accounts by their names, in byte order of the names, and also as a map from names.
#[derive(Drop)]
pub struct Book {
    contents: Contents,
}

impl Model for Book {
    ghost use Rattle.book_format.specs.Book.{BookFields};

    ghost Value = { BookFields };

    ghost view = { λ b. b.contents };
}

impl Book {
    /// A book without accounts. The salts of its decoys are derived from `decoy_key`, which must be secret, and their iteration
    /// count is `decoy_count`, at least 1.
    pub fn new(alloc: Global, decoy_key: [u8; 32], decoy_count: u32) -> Book
        requires { 1 ≤ decoy_count }
        ensures { result ≡ record { decoy_key = decoy_key; decoy_count = decoy_count; accounts = [] } }
    {
        let accounts = BTreeMap::new(alloc);
        Book {
            contents: Contents {
                decoy_key,
                decoy_count,
                accounts,
            },
        }
    }

    /// Each book is in its ranges: a law, for proofs that know only a book's value.
    pub(crate) fn law_of_ranges(&self)
        ensures { IsBook self.now }
    {
        // Reading a field brings the type's invariant into the proof.
        let _ = &self.contents.decoy_count;
    }

    /// The account of this name, or None if there is none.
    #[tactic(auto, using(crate::proofs::lemmas::Maps::account_is_in_map))]
    pub fn account(&self, name: &PlainName) -> Option<&Account>
        ensures value { option_copied result ≡ account_at self.now name.now }
        ensures mapped { option_copied result ≡ map.get (account_map self.now) name.now }
        ensures range { IfSome result (λ account. IsAccount account.now) }
    {
        self.contents.accounts.get(name)
    }

    /// Removes the account of this name. Returns whether there was one; if there was none, nothing changes.
    pub fn remove(&mut self, name: &PlainName) -> bool
        ensures found { result ≡ is_some (account_at self.old name.now) }
        ensures removed { IsRemoved self.old name.now self.new }
        ensures mapped { account_map self.new ≡ map.remove (account_map self.old) name.now }
    {
        self.contents.accounts.remove(name).is_some()
    }

    /// Lets the account of this name act as these names, at most 16, and as no others except its own. Returns whether there is such
    /// an account; if there is none, nothing changes.
    pub fn set_act_as(&mut self, name: &PlainName, act_as: Vec<PlainName>) -> bool
        requires { length act_as.items ≤ max_names }
        ensures found { result ≡ is_some (account_at self.old name.now) }
        ensures set { IsChanged self.old name.now (with_act_as act_as.items) self.new }
    {
        match self.contents.accounts.get_mut(name) {
            Some(account) => {
                account.act_as = act_as;
                true
            }
            None => false,
        }
    }
}
