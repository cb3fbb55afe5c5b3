//! An account to be added to a book.
ghost use Rattle.std.specs.Prelude.{◌≡◌, ◌≤◌, IfErr, MatchOption, OnErr, OnOk};
ghost use Rattle.account_book.specs.Accounts.{account_at};

use account_book::{Book, EnrolFault};
use command_line::Fault;
use scram_text::{Password, PlainName, Salt};
use std::alloc::Global;

/// The name of a new account, and what its keys are made from, except for the salts.
#[derive(Drop)]
pub struct NewAccount {
    /// The name of the account.
    pub name: PlainName,

    /// The password that its keys are made from.
    pub password: Password,

    /// The iteration count of its keys, at least 1.
    pub count: u32,

    ghost at_least: { 1 ≤ count },
}

impl NewAccount {
    ghost use Rattle.command_io.specs.HeldBook.{IsEnrolled};

    /// Adds the account to a book, with keys made from its password and these salts. Faults: NameTaken and NoMemory; after either,
    /// the book is unchanged.
    pub fn add_to(&self, alloc: Global, book: &mut Book, salts: &Salts) -> Result<(), Fault>
        ensures added { OnOk result (IsEnrolled self.now salts.now book.old book.new) }
        ensures unchanged { OnErr result (book.new ≡ book.old) }
        ensures err { IfErr result (λ fault. MatchOption (account_at book.old self.now.name)
            (fault ≡ Fault.NoMemory) (λ account. fault ≡ Fault.NameTaken)) }
    {
        let (name, password, count) = (&self.name, &self.password, self.count);
        match book.enrol(alloc, name, password, &salts.sha1, &salts.sha256, count) {
            Ok(()) => Ok(()),
            Err(EnrolFault::NameTaken) => Err(Fault::NameTaken),
            Err(EnrolFault::NoMemory) => Err(Fault::NoMemory),
        }
    }
}

/// The salts for a new account's keys, one for each mechanism.
#[derive(Drop)]
pub struct Salts {
    /// The salt for SCRAM-SHA-1.
    pub sha1: Salt,

    /// The salt for SCRAM-SHA-256.
    pub sha256: Salt,
}
