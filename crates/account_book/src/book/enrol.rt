//! Adds an account with a password.
ghost use Rattle.std.specs.Prelude.{◌≡◌, ◌≤◌, IfErr, OnOk, OnErr, MatchOption};
ghost use Rattle.mac_core.specs.Mechanism.{digest_len_by};
ghost use Rattle.book_format.specs.Account.{AreKeys};
ghost use Rattle.account_book.specs.Accounts.{account_at, IsAdded};
ghost use Rattle.account_book.specs.Enrolled.{enrolled, keys_from};
ghost use Rattle.account_book.specs.Faults.{enrol_fault_number};

use crate::book::Book;
use book_format::{Account, MechKeys};
use mac_core::{Mechanism, law_of_bytes};
use scram_text::{Password, PlainName, Salt};
use std::alloc::Global;
use thiserror::Error;

/// Why an account is not enrolled.
#[derive(Clone, Copy, Debug, PartialEq, Eq, Error)]
pub enum EnrolFault {
    /// 50: there already is an account of this name.
    #[error("an account of this name exists already")]
    NameTaken = 50,

    /// 99: there was no memory for the account.
    #[error("no memory for the account")]
    NoMemory = 99,
}

impl EnrolFault {
    /// The fault's number: 50 or 99.
    pub fn number(&self) -> u16
        ensures { result ≡ enrol_fault_number self.now }
    {
        *self as u16
    }
}

impl Book {
    /// Adds an account of this name, with the keys of `password` for both mechanisms: those of SCRAM-SHA-1 with `sha1_salt`, those of
    /// SCRAM-SHA-256 with `sha256_salt`, and both with `count`, at least 1. It may act as no other name and has no token. Errors:
    /// 50 NameTaken if the name has an account, else 99 NoMemory, only if memory runs out (no clause says so). After an error
    /// nothing has changed.
    pub fn enrol(
        &mut self,
        alloc: Global,
        name: &PlainName,
        password: &Password,
        sha1_salt: &Salt,
        sha256_salt: &Salt,
        count: u32,
    ) -> Result<(), EnrolFault>
        requires { 1 ≤ count }
        ensures added { OnOk result (IsAdded self.old name.now (enrolled password.now sha1_salt.now sha256_salt.now count) self.new) }
        ensures refused { IfErr result (λ fault. MatchOption (account_at self.old name.now)
            (fault ≡ EnrolFault.NoMemory) (λ account. fault ≡ EnrolFault.NameTaken)) }
        ensures err { OnErr result (self.new ≡ self.old) }
    {
        if self.contents.accounts.contains_key(name) {
            return Err(EnrolFault::NameTaken);
        }
        let account = Account {
            sha1: Some(made_keys(Mechanism::ScramSha1, password, sha1_salt, count)),
            sha256: Some(made_keys(Mechanism::ScramSha256, password, sha256_salt, count)),
            act_as: Vec::new(alloc),
            token: None,
        };
        match self.contents.accounts.insert(name.copy(), account) {
            Ok(_) => Ok(()),
            Err(_) => Err(EnrolFault::NoMemory),
        }
    }
}

// What is kept for a mechanism: the salt, the count, and the keys that the password makes with them.
fn made_keys(mechanism: Mechanism, password: &Password, salt: &Salt, count: u32) -> MechKeys
    requires { 1 ≤ count }
    ensures value { result ≡ keys_from mechanism password.now salt.now count }
    ensures range { AreKeys (digest_len_by mechanism) result }
{
    let bytes = salt.bytes();
    law_of_bytes(bytes);
    MechKeys {
        salt: salt.copy(),
        count,
        keys: mechanism.scram_keys(password.bytes(), bytes, count),
    }
}
