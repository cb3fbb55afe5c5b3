//! Reads a book's text, from the document down.
ghost use Rattle.std.specs.Prelude.{◌≡◌, option_map, Some, None, codes, length, option_and_then};
ghost use Rattle.toml.specs.Data.{get_member, as_integer};
ghost use Rattle.toml.specs.View.{table_view};
ghost use Rattle.mac_core.specs.Mechanism.{digest_len_by};
ghost use Rattle.mac_core.specs.declared.mechanism.Mechanism.TheVariants.{ScramSha256};
ghost use Rattle.book_format.specs.Readings.{IsReadAnswered};
ghost use Rattle.book_format.specs.inner.Steps.{IsReadAs, IsReadOrFault, seen};
ghost use Rattle.book_format.specs.inner.Books.{at_top, tree_in, top_shown, top_of, accounts_of_table, book_in};
ghost use Rattle.book_format.specs.FirstFault.{is_one};
ghost use Rattle.book_format.specs.inner.Rows.{read_some};
ghost use Rattle.book_format.specs.inner.Values.{table_of};

mod accounts;
mod field;
mod keys;
mod token;

use crate::account::{Account, SHA256_KEY_LEN};
use crate::contents::Contents;
use crate::fault::{BookFault, BookWhy};
use accounts::accounts_from;
use field::{at, bytes_at, check_keys, number_at, table_of};
use mac_core::Tag;
use scram_text::{MAX_ITERATION_COUNT, PlainName};
use std::alloc::Global;
use std::collections::BTreeMap;
use toml::Table;

// The keys of the document itself, with the accounts unread.
#[derive(Drop)]
struct Top<'a> {
    decoy_key: [u8; 32],
    decoy_count: u32,
    accounts: Option<&'a Table>,
}

impl Contents {
    /// Reads the contents of the book whose text is `bytes`. Errors: the first fault (60 to 67), of the document, of `format`, of
    /// the document's keys, then of account after account in byte order of names. In each table unknown keys come first, then its
    /// keys in the order of the format; the name of an account and the `kind` of a token come before both. 99 NoMemory may come at
    /// any place; no clause says that it comes only if memory runs out.
    pub fn read(alloc: Global, bytes: &[u8]) -> Result<Contents, BookFault>
        ensures { IsReadAnswered bytes.now result }
    {
        contents_of(alloc, bytes)
    }
}

// The contents of a text, or the first fault: of the document, of its keys, then of its accounts.
fn contents_of(alloc: Global, bytes: &[u8]) -> Result<Contents, BookFault>
    ensures { IsReadOrFault (λ c. c) result (book_in bytes.now) }
{
    let document = match document_of(alloc, bytes) {
        Ok(document) => document,
        Err(why) => return Err(at_top(why)),
    };
    let top = match top_of(&document) {
        Ok(top) => top,
        Err(why) => return Err(at_top(why)),
    };
    match accounts_of_table(alloc, top.accounts) {
        Ok(accounts) => Ok(Contents {
            decoy_key: top.decoy_key,
            decoy_count: top.decoy_count,
            accounts,
        }),
        Err(fault) => Err(fault),
    }
}

// A fault that is not in an account.
fn at_top(why: BookWhy) -> BookFault
    ensures { result ≡ record { why = why; account = None } }
{
    BookFault { why, account: None }
}

// The TOML document of the bytes. Errors: `Toml` if they are not UTF-8 or not a document; `NoMemory` if memory runs out.
#[tactic(auto, unfolding(crate::specs::inner::Books::tree_in))]
fn document_of(alloc: Global, bytes: &[u8]) -> Result<Table, BookWhy>
    ensures { IsReadAs table_view result (tree_in bytes.now) }
{
    match toml::table_from_slice(alloc, bytes) {
        Ok(table) => Ok(table),
        Err(e) => {
            if e.is_memory() {
                Err(BookWhy::NoMemory)
            } else {
                Err(BookWhy::Toml)
            }
        }
    }
}

// The keys of the document itself. Errors: `Format` if `format` is missing or not 1; `Key` if a key is unknown; then for the first
// key at fault: `Key` if it is missing or its value has the wrong type, else `KeyLength` or `Count`.
#[tactic(auto, unfolding(crate::specs::inner::Books::top_of, crate::specs::inner::Rows::read_table))]
fn top_of(table: &Table) -> Result<Top<'_>, BookWhy>
    ensures { seen top_shown result ≡ top_of (table_view table.now) }
{
    if !is_format(table) {
        return Err(BookWhy::Format);
    }
    check_keys(table, &["format", "decoy_key", "decoy_count", "accounts"])?;
    let decoy_key = bytes_at(
        table,
        "decoy_key",
        SHA256_KEY_LEN,
        SHA256_KEY_LEN,
        BookWhy::KeyLength,
    )?;
    let most = u64::from(MAX_ITERATION_COUNT);
    let decoy_count = number_at(table, "decoy_count", 1, most, BookWhy::Count)?;
    let accounts = table_if_any(table, "accounts")?;
    Ok(Top {
        decoy_key: decoy_key_of(&decoy_key),
        decoy_count: decoy_count as u32,
        accounts,
    })
}

// Whether the table has `format = 1`.
fn is_format(table: &Table) -> bool
    ensures { result ≡ is_one (option_and_then as_integer (get_member (codes "format") (table_view table.now))) }
{
    match at(table, "format") {
        Some(value) => value.as_integer() == Some(1),
        None => false,
    }
}

// The decoy key with these 32 bytes.
fn decoy_key_of(bytes: &Tag) -> [u8; 32]
    requires { length bytes.now.items ≡ digest_len_by ScramSha256 }
    ensures { result ≡ bytes.now.items }
{
    let mut key = [0; 32];
    key.copy_from_slice(bytes.as_slice());
    key
}

// The table at a key, or None if the key is missing. Errors: `Key` if the value is not a table.
fn table_if_any<'a>(table: &'a Table, key: &str) -> Result<Option<&'a Table>, BookWhy>
    ensures { seen (λ t. option_map (λ m. table_view m.now) t) result ≡ read_some key.now table_of (table_view table.now) }
{
    match at(table, key) {
        Some(value) => Ok(Some(table_of(value)?)),
        None => Ok(None),
    }
}

// The accounts of a table; none if it is missing. Errors: those of `accounts_from`.
fn accounts_of_table(
    alloc: Global,
    table: Option<&Table>,
) -> Result<BTreeMap<PlainName, Account>, BookFault>
    ensures { IsReadOrFault (λ m. m.entries) result (accounts_of_table (option_map (λ m. table_view m.now) table.entry)) }
{
    match table {
        Some(table) => accounts_from(alloc, table),
        None => Ok(BTreeMap::new(alloc)),
    }
}
