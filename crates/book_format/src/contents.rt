//! The contents of an account book.
use crate::account::Account;
use scram_text::PlainName;
use std::collections::BTreeMap;
use std::marker::Model;

/// The contents of an account book. Each account is in the ranges that `Account` and `MechKeys` state.
#[derive(Drop)]
pub struct Contents {
    /// The key from which the salts of decoys are derived.
    pub decoy_key: [u8; 32],

    /// The iteration count of decoys, at least 1.
    pub decoy_count: u32,

    /// The accounts by their names.
    pub accounts: BTreeMap<PlainName, Account>,
}

impl Model for Contents {
    ghost use Rattle.book_format.specs.Book.{BookFields, IsBook};

    ghost Value = { BookFields };

    ghost view = { λ c. record { decoy_key = c.decoy_key; decoy_count = c.decoy_count; accounts = c.accounts.entries } };

    ghost invariant = { λ c. IsBook (record { decoy_key = c.decoy_key; decoy_count = c.decoy_count; accounts = c.accounts.entries }) };
}
