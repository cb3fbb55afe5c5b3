//! Writes an account as TOML values.
ghost use Rattle.std.specs.Prelude.{◌≡◌, ℕ, IfOk, OnOk, codes, option_map};
ghost use Rattle.std.specs.Option.{ForSome};
ghost use Rattle.toml.specs.View.{view, table_view};
ghost use Rattle.book_format.specs.Account.{AreKeys, IsAccount};
ghost use Rattle.book_format.specs.Put.{put_some};
ghost use Rattle.book_format.specs.Names.{AreNames, names_tree};
ghost use Rattle.book_format.specs.Rows.{WritesItself};
ghost use Rattle.book_format.specs.RowKinds.{table_type};
ghost use Rattle.book_format.specs.Tables as tables;

use super::put::{put, put_count, put_hex};
use super::token::token_value;
use crate::account::{Account, MechKeys};
use otp_core::Token;
use scram_text::PlainName;
use std::alloc::{AllocError, Global};
use toml::{Table, Value};

/// The TOML value of an account. Errors: `AllocError` if memory runs out.
#[tactic(auto, unfolding(crate::specs::Rows::written_table))]
pub(crate) fn account_value(alloc: Global, account: &Account) -> Result<Value, AllocError>
    ensures tree { IfOk result (λ v. view v ≡ (table_type tables.account_table).write account.now) }
    ensures itself { OnOk result (IsAccount account.now → WritesItself (table_type tables.account_table) account.now) }
{
    let mut table = Table::new(alloc);
    put_keys(alloc, &mut table, "sha1", &account.sha1)?;
    put_keys(alloc, &mut table, "sha256", &account.sha256)?;
    put(
        alloc,
        &mut table,
        "act_as",
        names_value(alloc, account.act_as.as_slice())?,
    )?;
    put_token(alloc, &mut table, &account.token)?;
    Ok(Value::Table(table))
}

// Puts the keys of either mechanism: the tables of both key lengths write the same tree.
fn put_keys(
    alloc: Global,
    table: &mut Table,
    key: &str,
    keys: &Option<MechKeys>,
) -> Result<(), AllocError>
    ensures tree { OnOk result (table_view table.new
        ≡ put_some key.now (option_map (table_type tables.sha1_keys_table).write keys.now) (table_view table.old)) }
    ensures itself { OnOk result ((len : ℕ) → ForSome keys.now (AreKeys len)
        → ForSome keys.now (WritesItself (table_type (tables.keys_table len)))) }
{
    match keys {
        Some(keys) => put(alloc, table, key, keys_value(alloc, keys)?),
        None => Ok(()),
    }
}

// Puts the token, if there is one.
fn put_token(alloc: Global, table: &mut Table, token: &Option<Token>) -> Result<(), AllocError>
    ensures tree { OnOk result (table_view table.new
        ≡ put_some (codes "token") (option_map tables.token_type.write token.now) (table_view table.old)) }
    ensures itself { OnOk result (ForSome token.now (WritesItself tables.token_type)) }
{
    match token {
        Some(token) => put(alloc, table, "token", token_value(alloc, token)?),
        None => Ok(()),
    }
}

// The TOML value of what is kept for a mechanism.
#[tactic(auto, unfolding(crate::specs::Rows::written_table))]
fn keys_value(alloc: Global, keys: &MechKeys) -> Result<Value, AllocError>
    ensures tree { IfOk result (λ v. view v ≡ (table_type tables.sha1_keys_table).write keys.now) }
    ensures itself { OnOk result ((len : ℕ) → AreKeys len keys.now → WritesItself (table_type (tables.keys_table len)) keys.now) }
{
    let mut table = Table::new(alloc);
    put_hex(alloc, &mut table, "salt", keys.salt.bytes())?;
    put_count(alloc, &mut table, "count", keys.count)?;
    put_hex(alloc, &mut table, "stored", keys.keys.stored.as_slice())?;
    put_hex(alloc, &mut table, "server", keys.keys.server.as_slice())?;
    Ok(Value::Table(table))
}

// The TOML value of the names: an array of texts.
fn names_value(alloc: Global, names: &[PlainName]) -> Result<Value, AllocError>
    ensures tree { IfOk result (λ v. view v ≡ names_tree names.now) }
    ensures plain { OnOk result (AreNames names.now) }
{
    let mut values = Vec::new(alloc);
    for name in names {
        values.push(Value::string(alloc, name.text())?)?;
    }
    Ok(Value::Array(values))
}
