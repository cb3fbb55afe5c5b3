//! Reads the accounts of a book.
ghost use Rattle.std.specs.Prelude.{◌≡◌, ◌≤◌, codes, [], Some};
ghost use Rattle.toml.specs.View.{view, items_view, table_view};
ghost use Rattle.scram_text.specs.Limits.{max_tag_len};
ghost use Rattle.book_format.specs.inner.Values.{plain_name_of, names_in, names_of, name_list_in};
ghost use Rattle.book_format.specs.Names.{are_texts};
ghost use Rattle.book_format.specs.inner.Steps.{IsReadAs, IsReadOrFault};
ghost use Rattle.book_format.specs.inner.Books.{named_account_of, accounts_from, in_account};
ghost use Rattle.book_format.specs.inner.Rows.{read_or_default, read_some, table_in};
ghost use Rattle.book_format.specs.inner.Tables.{keys_reading, account_reading};
ghost use Rattle.book_format.specs.inner.Tokens.{token_in};
ghost use Rattle.book_format.specs.Tables.{keys_table, account_table};
ghost use Rattle.book_format.specs.declared.fault.BookWhy.TheVariants.{NoMemory};

use crate::account::{Account, MechKeys, SHA1_KEY_LEN, SHA256_KEY_LEN};
use crate::fault::{BookFault, BookWhy};
use crate::read::field::{at, check_keys, table_of};
use crate::read::keys::keys_of;
use crate::read::token::token_of;
use otp_core::Token;
use scram_text::PlainName;
use std::alloc::Global;
use std::collections::BTreeMap;
use toml::{Table, Value};

// The most names that an account may act as.
const MAX_NAMES: usize = 16;

/// The accounts of a table, in byte order of names, each read as a whole before the next. Errors: the fault of the first account at
/// fault, with its index; `NoMemory` at any place.
#[tactic(auto, unfolding(crate::specs::inner::Books::accounts_from))]
pub(crate) fn accounts_from(
    alloc: Global,
    table: &Table,
) -> Result<BTreeMap<PlainName, Account>, BookFault>
    ensures { IsReadOrFault (λ m. m.entries) result (accounts_from 0 (table_view table.now)) }
{
    let mut accounts = BTreeMap::new(alloc);
    let mut index = 0;
    for (key, value) in table.iter() {
        let (name, account) = match named_account_of(alloc, key.as_str(), value) {
            Ok(entry) => entry,
            Err(why) => return Err(in_account(why, index)),
        };
        if accounts.insert(name, account).is_err() {
            return Err(in_account(BookWhy::NoMemory, index));
        }
        index += 1;
    }
    Ok(accounts)
}

// A fault in the account with this index.
fn in_account(why: BookWhy, index: usize) -> BookFault
    ensures { result ≡ record { why = why; account = Some index } }
{
    BookFault {
        why,
        account: Some(index),
    }
}

// An account and its name. Errors: `Name` if the key is not a plain name; then those of `account_of`.
#[tactic(auto, unfolding(crate::specs::inner::Books::named_account_of))]
fn named_account_of(
    alloc: Global,
    key: &str,
    value: &Value,
) -> Result<(PlainName, Account), BookWhy>
    ensures { IsReadAs (λ e. e) result (named_account_of key.now (view value.now)) }
{
    let name = plain_name_of(key)?;
    let account = account_of(alloc, value)?;
    Ok((name, account))
}

// The name. Errors: `Name` if the text is not 1 to 255 bytes of 20 to 7E hex.
fn plain_name_of(text: &str) -> Result<PlainName, BookWhy>
    ensures { result ≡ plain_name_of text.now }
{
    PlainName::new(text.as_bytes()).ok_or(BookWhy::Name)
}

// The account of a table. Each of its keys may be missing. Errors: `Key` if the value is not a table or a key is unknown; then the
// fault of the first of `sha1`, `sha256`, `act_as` and `token` at fault.
#[tactic(auto, unfolding(crate::specs::inner::Rows::table_in, crate::specs::inner::Rows::read_table))]
fn account_of(alloc: Global, value: &Value) -> Result<Account, BookWhy>
    ensures { IsReadAs (λ a. a) result (table_in account_table account_reading (view value.now)) }
{
    let table = table_of(value)?;
    check_keys(table, &["sha1", "sha256", "act_as", "token"])?;
    let sha1 = keys_if_any(SHA1_KEY_LEN, table, "sha1")?;
    let sha256 = keys_if_any(SHA256_KEY_LEN, table, "sha256")?;
    let act_as = act_as_if_any(alloc, table)?;
    let token = token_if_any(table)?;
    Ok(Account {
        sha1,
        sha256,
        act_as,
        token,
    })
}

// What is kept for a mechanism, or None if its key is missing. Errors: those of `keys_of`.
fn keys_if_any(len: usize, table: &Table, key: &str) -> Result<Option<MechKeys>, BookWhy>
    requires { len ≤ max_tag_len }
    ensures { result ≡ read_some key.now (table_in (keys_table len) (keys_reading len)) (table_view table.now) }
{
    match at(table, key) {
        Some(value) => Ok(Some(keys_of(len, value)?)),
        None => Ok(None),
    }
}

// The token, or None if there is no key `token`. Errors: those of `token_of`.
fn token_if_any(table: &Table) -> Result<Option<Token>, BookWhy>
    ensures { result ≡ read_some (codes "token") token_in (table_view table.now) }
{
    match at(table, "token") {
        Some(value) => Ok(Some(token_of(value)?)),
        None => Ok(None),
    }
}

// The names that the account may act as; none if there is no key `act_as`. Errors: those of `act_as_of`.
fn act_as_if_any(alloc: Global, table: &Table) -> Result<Vec<PlainName>, BookWhy>
    ensures { IsReadAs (λ v. v.items) result (read_or_default [] (codes "act_as") name_list_in (table_view table.now)) }
{
    match at(table, "act_as") {
        Some(value) => act_as_of(alloc, value),
        None => Ok(Vec::new(alloc)),
    }
}

// The names of a list. Errors: `Key` if the value is not a list or contains a value that is not a text; then `Name` if there are
// more than 16 or one is not plain.
#[tactic(auto, unfolding(crate::specs::inner::Values::name_list_in))]
fn act_as_of(alloc: Global, value: &Value) -> Result<Vec<PlainName>, BookWhy>
    ensures { IsReadAs (λ v. v.items) result (name_list_in (view value.now)) }
{
    let list = value.as_array().ok_or(BookWhy::Key)?;
    names_of(alloc, list.as_slice())
}

// The names. The types of all are checked before the value of any. Their number may be checked before their values, since both
// faults are `Name`.
fn names_of(alloc: Global, list: &[Value]) -> Result<Vec<PlainName>, BookWhy>
    ensures { IsReadAs (λ v. v.items) result (names_of (items_view list.now)) }
{
    if !are_texts(list) {
        return Err(BookWhy::Key);
    }
    if list.len() > MAX_NAMES {
        return Err(BookWhy::Name);
    }
    names_in(alloc, list)
}

// Whether each value is a text.
fn are_texts(list: &[Value]) -> bool
    ensures { result ≡ are_texts (items_view list.now) }
{
    for value in list {
        if value.as_str().is_none() {
            return false;
        }
    }
    true
}

// The names of texts. Errors: `Key` at the first value that is not a text; `Name` at the first that is not a plain name.
#[tactic(auto, unfolding(crate::specs::inner::Values::names_in, crate::specs::inner::Values::text_in))]
fn names_in(alloc: Global, list: &[Value]) -> Result<Vec<PlainName>, BookWhy>
    ensures { IsReadAs (λ v. v.items) result (names_in (items_view list.now)) }
{
    let mut names = Vec::new(alloc);
    for value in list {
        let Some(text) = value.as_str() else {
            return Err(BookWhy::Key);
        };
        let name = match plain_name_of(text) {
            Ok(name) => name,
            Err(why) => return Err(why),
        };
        if names.push(name).is_err() {
            return Err(BookWhy::NoMemory);
        }
    }
    Ok(names)
}
