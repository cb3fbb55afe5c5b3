//! Writes a token as TOML values.
ghost use Rattle.std.specs.Prelude.{◌≡◌, None, IfOk, OnOk, codes, option_map, pos};
ghost use Rattle.std.specs.Option.{ForSome};
ghost use Rattle.toml.specs.Data.{integer};
ghost use Rattle.toml.specs.View.{view, table_view};
ghost use Rattle.otp_core.specs.Ranges.{IsInBounds};
ghost use Rattle.otp_core.specs.declared.fault.Setting.TheVariants.{Last};
ghost use Rattle.otp_core.specs.TokenRanges.{IsHotpInRange, IsTotpInRange};
ghost use Rattle.book_format.specs.Put.{put_some};
ghost use Rattle.book_format.specs.Rows.{WritesItself, written_table};
ghost use Rattle.book_format.specs.RowKinds.{table_type};
ghost use Rattle.book_format.specs.Tables as tables;
ghost use Rattle.book_format.specs.Tokens as tokens;

use super::put::{put_hex, put_number, put_text};
use otp_core::{HotpFields, Token, TokenFields, TotpFields};
use std::alloc::{AllocError, Global};
use toml::{Table, Value};

/// The TOML value of a token. Errors: `AllocError` if memory runs out.
pub(crate) fn token_value(alloc: Global, token: &Token) -> Result<Value, AllocError>
    ensures tree { IfOk result (λ v. view v ≡ tables.token_type.write token.now) }
    ensures itself { OnOk result (WritesItself tables.token_type token.now) }
{
    match token.fields() {
        TokenFields::Hotp(fields) => hotp_value(alloc, fields),
        TokenFields::Totp(fields) => totp_value(alloc, fields),
    }
}

// The TOML value of a HOTP token.
#[tactic(auto, unfolding(crate::specs::Rows::written_table))]
fn hotp_value(alloc: Global, fields: &HotpFields) -> Result<Value, AllocError>
    requires { IsHotpInRange fields.now }
    ensures tree { IfOk result (λ v. view v ≡ (table_type tokens.hotp_table).write fields.now) }
    ensures itself { OnOk result (WritesItself (table_type tokens.hotp_table) fields.now) }
{
    let mut table = Table::new(alloc);
    put_text(alloc, &mut table, "kind", "hotp")?;
    put_hex(alloc, &mut table, "secret", fields.secret.bytes())?;
    put_number(
        alloc,
        &mut table,
        "digits",
        i64::from(fields.digits.count()),
    )?;
    put_number(alloc, &mut table, "next", fields.next as i64)?;
    put_number(alloc, &mut table, "look_ahead", fields.look_ahead as i64)?;
    put_number(alloc, &mut table, "sync_ahead", fields.sync_ahead as i64)?;
    put_number(alloc, &mut table, "limit", fields.limit as i64)?;
    put_number(alloc, &mut table, "failures", fields.failures as i64)?;
    Ok(Value::Table(table))
}

// The TOML value of a TOTP token.
fn totp_value(alloc: Global, fields: &TotpFields) -> Result<Value, AllocError>
    requires { IsTotpInRange fields.now }
    ensures tree { IfOk result (λ v. view v ≡ (table_type tokens.totp_table).write fields.now) }
    ensures itself { OnOk result (WritesItself (table_type tokens.totp_table) fields.now) }
{
    let mut table = settings_table(alloc, fields)?;
    put_last(alloc, &mut table, fields.last)?;
    Ok(Value::Table(table))
}

// The table of a TOTP token, without its last step.
#[tactic(auto, unfolding(crate::specs::Rows::written_table))]
fn settings_table(alloc: Global, fields: &TotpFields) -> Result<Table, AllocError>
    requires { IsTotpInRange fields.now }
    ensures tree { IfOk result (λ t. table_view t ≡ written_table tokens.totp_table (record fields.now { last = None })) }
    ensures itself { OnOk result (WritesItself (table_type tokens.totp_table) fields.now) }
{
    let mut table = Table::new(alloc);
    put_text(alloc, &mut table, "kind", "totp")?;
    put_text(alloc, &mut table, "hash", fields.hash.name())?;
    put_hex(alloc, &mut table, "secret", fields.secret.bytes())?;
    put_number(
        alloc,
        &mut table,
        "digits",
        i64::from(fields.digits.count()),
    )?;
    put_number(alloc, &mut table, "t0", fields.t0.seconds() as i64)?;
    put_number(alloc, &mut table, "step", fields.step as i64)?;
    put_number(alloc, &mut table, "back", fields.back as i64)?;
    put_number(alloc, &mut table, "ahead", fields.ahead as i64)?;
    put_number(alloc, &mut table, "max_drift", fields.max_drift as i64)?;
    put_number(alloc, &mut table, "drift", fields.drift)?;
    put_number(alloc, &mut table, "limit", fields.limit as i64)?;
    put_number(alloc, &mut table, "failures", fields.failures as i64)?;
    Ok(table)
}

// Puts the last step that passed, if there is one.
fn put_last(alloc: Global, table: &mut Table, last: Option<u64>) -> Result<(), AllocError>
    requires { ForSome last (IsInBounds Last) }
    ensures { OnOk result (table_view table.new
        ≡ put_some (codes "last") (option_map (λ n. integer (pos n)) last) (table_view table.old)) }
{
    match last {
        Some(last) => put_number(alloc, table, "last", last as i64),
        None => Ok(()),
    }
}
