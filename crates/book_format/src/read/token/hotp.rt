//! Reads a HOTP token: `secret`, `digits`, `next`, `look_ahead`, `sync_ahead`, `limit`, `failures`.
ghost use Rattle.std.specs.Prelude.{◌≡◌, IfOk};
ghost use Rattle.toml.specs.View.{table_view};
ghost use Rattle.otp_core.specs.TokenRanges.{IsHotpInRange};
ghost use Rattle.otp_core.specs.declared.token.kinds.TokenFields.TheVariants.{Hotp};
ghost use Rattle.book_format.specs.Keys.{is_among, has_only};
ghost use Rattle.book_format.specs.inner.Steps.{pass_or};
ghost use Rattle.book_format.specs.inner.Rows.{read_table};
ghost use Rattle.book_format.specs.inner.Tokens.{hotp_reading};
ghost use Rattle.book_format.specs.Rows.{table_keys};
ghost use Rattle.book_format.specs.Tokens.{hotp_table};
ghost use Rattle.book_format.specs.declared.fault.BookWhy.TheVariants as why;

use crate::fault::BookWhy;
use crate::read::field::{bytes_at, check_keys, number_at};
use crate::read::token::setting::{digits_of, secret_of, setting_at, setting_or_zero};
use otp_core::{
    HotpFields, MAX_DIGITS, MAX_SECRET_LEN, MIN_DIGITS, MIN_SECRET_LEN, Setting, Token,
};
use toml::Table;

/// The settings and the state of a HOTP token, from a table whose `kind` says that it is one. `sync_ahead` may be missing. Errors:
/// `Key` if a key is unknown; then for the first key at fault, in the order of the keys at the head of this file: `Key` if it is
/// missing or its value has the wrong type, else `Token` if the value is out of its range.
#[tactic(auto, unfolding(crate::specs::inner::Rows::read_table))]
pub(crate) fn hotp_of(table: &Table) -> Result<HotpFields, BookWhy>
    ensures value { result ≡ read_table hotp_table hotp_reading (table_view table.now) }
    ensures range { IfOk result IsHotpInRange }
{
    check_hotp_keys(table)?;
    let secret = bytes_at(
        table,
        "secret",
        MIN_SECRET_LEN,
        MAX_SECRET_LEN,
        BookWhy::Token,
    )?;
    let digits = number_at(
        table,
        "digits",
        u64::from(MIN_DIGITS),
        u64::from(MAX_DIGITS),
        BookWhy::Token,
    )?;
    let next = setting_at(table, Setting::Next)?;
    let look_ahead = setting_at(table, Setting::LookAhead)?;
    let sync_ahead = setting_or_zero(table, Setting::SyncAhead)?;
    let limit = setting_at(table, Setting::Limit)?;
    let failures = number_at(table, "failures", 0, limit, BookWhy::Token)?;
    Ok(HotpFields {
        secret: secret_of(&secret),
        digits: digits_of(digits),
        next,
        look_ahead,
        sync_ahead,
        limit,
        failures,
    })
}

// Checks the keys of a table. Errors: `Key` if it has a key that a HOTP token does not have.
fn check_hotp_keys(table: &Table) -> Result<(), BookWhy>
    ensures { result ≡ pass_or (has_only (is_among (table_keys hotp_table)) (table_view table.now)) why.Key }
{
    check_keys(
        table,
        &[
            "kind",
            "secret",
            "digits",
            "next",
            "look_ahead",
            "sync_ahead",
            "limit",
            "failures",
        ],
    )
}

/// The token with these settings, which are in their ranges.
pub(crate) fn hotp_token(fields: HotpFields) -> Token
    requires { IsHotpInRange fields }
    ensures { result ≡ Hotp fields }
{
    let Ok(token) = Token::hotp(fields) else {
        unreachable!()
    };
    token
}
