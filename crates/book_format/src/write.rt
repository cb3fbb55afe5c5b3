//! Writes the text of an account book.
ghost use Rattle.std.specs.Prelude.{◌≡◌, codes, length, Ok, IfOk, OnOk, string_bytes};
ghost use Rattle.hex.specs.Hex.{decode_of, encode_lower};
ghost use Rattle.toml.specs.Data.{string};
ghost use Rattle.toml.specs.View.{table_view};
ghost use Rattle.mac_core.specs.Mechanism.{digest_len_by};
ghost use Rattle.mac_core.specs.declared.mechanism.Mechanism.TheVariants.{ScramSha256};
ghost use Rattle.book_format.specs.Book.{AreAccounts};
ghost use Rattle.book_format.specs.Put.{put_member};
ghost use Rattle.book_format.specs.Trees.{AreAccountTrees, IsBookTree};
ghost use Rattle.book_format.specs.Written.{book_tree, accounts_tree, IsWrittenText};

mod account;
mod put;
mod token;

use crate::account::Account;
use crate::contents::Contents;
use account::account_value;
use put::{put, put_count, put_hex, put_number};
use scram_text::PlainName;
use std::alloc::{AllocError, Global};
use std::collections::BTreeMap;
use toml::ser::Error;
use toml::{Table, Value};

impl Contents {
    /// The book's text, which `read` reads as these contents unless memory runs out. It has each key that has a value, with bytes in
    /// lower-case hexadecimal; `act_as` is written even if it is empty. In each table the keys stand in byte order, those of tables
    /// after the others. Errors: `AllocError`, only if memory runs out (no clause says so).
    pub fn write(&self, alloc: Global) -> Result<String, AllocError>
        ensures { IfOk result (λ text. IsWrittenText (string_bytes text) self.now) }
    {
        match toml::table_to_string(alloc, &book_table(alloc, self)?) {
            Ok(text) => Ok(text),
            Err(Error::OutOfMemory) => Err(AllocError),
            Err(Error::DateInvalid) => unreachable!(),
        }
    }
}

// The table of a whole book.
#[tactic(auto, unfolding(crate::specs::Written::book_tree, crate::specs::Rows::written_table))]
fn book_table(alloc: Global, book: &Contents) -> Result<Table, AllocError>
    ensures tree { IfOk result (λ t. table_view t ≡ book_tree book.now) }
    ensures stands { OnOk result (IsBookTree (book_tree book.now) book.now) }
{
    let mut table = Table::new(alloc);
    put_number(alloc, &mut table, "format", 1)?;
    put_decoy_key(alloc, &mut table, &book.decoy_key)?;
    put_count(alloc, &mut table, "decoy_count", book.decoy_count)?;
    put(
        alloc,
        &mut table,
        "accounts",
        Value::Table(accounts_table(alloc, &book.accounts)?),
    )?;
    Ok(table)
}

// Puts the decoy key into the table; its type gives its length.
fn put_decoy_key(alloc: Global, table: &mut Table, key: &[u8; 32]) -> Result<(), AllocError>
    ensures tree { OnOk result (table_view table.new
        ≡ put_member (codes "decoy_key") (string (encode_lower key.now)) (table_view table.old)) }
    ensures len { length key.now ≡ digest_len_by ScramSha256 }
    ensures back { decode_of (encode_lower key.now) ≡ Ok key.now }
{
    put_hex(alloc, table, "decoy_key", key)
}

// The table of the accounts, each at its name.
fn accounts_table(
    alloc: Global,
    accounts: &BTreeMap<PlainName, Account>,
) -> Result<Table, AllocError>
    requires { AreAccounts accounts.now.entries }
    ensures tree { IfOk result (λ t. table_view t ≡ accounts_tree accounts.now.entries) }
    ensures stands { OnOk result (AreAccountTrees (accounts_tree accounts.now.entries) accounts.now.entries) }
{
    let mut table = Table::new(alloc);
    for (name, account) in accounts.iter() {
        put(
            alloc,
            &mut table,
            name.text(),
            account_value(alloc, account)?,
        )?;
    }
    Ok(table)
}
