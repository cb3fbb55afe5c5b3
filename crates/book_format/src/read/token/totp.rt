//! Reads a TOTP token: `hash`, `secret`, `digits`, `t0`, `step`, `back`, `ahead`, `max_drift`, `last`, `drift`, `limit`,
//! `failures`.
ghost use Rattle.std.specs.Prelude.{◌≡◌, ◌≤◌, codes, nat_abs, IfOk};
ghost use Rattle.std.specs.Option.{ForSome};
ghost use Rattle.toml.specs.View.{table_view};
ghost use Rattle.otp_core.specs.Ranges.{IsInBounds};
ghost use Rattle.otp_core.specs.TokenRanges.{IsTotpInRange};
ghost use Rattle.otp_core.specs.declared.fault.Setting.TheVariants.{Last};
ghost use Rattle.otp_core.specs.declared.token.kinds.TokenFields.TheVariants.{Totp};
ghost use Rattle.book_format.specs.Keys.{is_among, has_only};
ghost use Rattle.book_format.specs.inner.Steps.{pass_or};
ghost use Rattle.book_format.specs.inner.Values.{setting_in, signed_in, hash_in};
ghost use Rattle.book_format.specs.inner.Rows.{read_at, read_some, read_table};
ghost use Rattle.book_format.specs.inner.Tokens.{totp_reading};
ghost use Rattle.book_format.specs.Rows.{table_keys};
ghost use Rattle.book_format.specs.Tokens.{totp_table};
ghost use Rattle.book_format.specs.declared.fault.BookWhy.TheVariants as why;

use crate::fault::BookWhy;
use crate::read::field::{at, bytes_at, check_keys, number_at, required, text_at};
use crate::read::token::setting::{digits_of, moment_of, secret_of, setting_at, setting_of};
use otp_core::{
    MAX_DIGITS, MAX_MOMENT, MAX_SECRET_LEN, MIN_DIGITS, MIN_SECRET_LEN, OtpHash, Setting, Token,
    TotpFields,
};
use toml::Table;

/// The settings and the state of a TOTP token, from a table whose `kind` says that it is one. `last` may be missing. Errors: `Key`
/// if a key is unknown; then for the first key at fault, in the order of the keys at the head of this file: `Key` if it is missing
/// or its value has the wrong type, else `Token` if the value is out of its range.
#[tactic(auto, unfolding(crate::specs::inner::Rows::read_table))]
pub(crate) fn totp_of(table: &Table) -> Result<TotpFields, BookWhy>
    ensures value { result ≡ read_table totp_table totp_reading (table_view table.now) }
    ensures range { IfOk result IsTotpInRange }
{
    check_totp_keys(table)?;
    let hash = hash_at(table, "hash")?;
    let secret = bytes_at(
        table,
        "secret",
        MIN_SECRET_LEN,
        MAX_SECRET_LEN,
        BookWhy::Token,
    )?;
    let digits = number_at(
        table,
        "digits",
        u64::from(MIN_DIGITS),
        u64::from(MAX_DIGITS),
        BookWhy::Token,
    )?;
    let t0 = number_at(table, "t0", 0, MAX_MOMENT, BookWhy::Token)?;
    let step = setting_at(table, Setting::Step)?;
    let back = setting_at(table, Setting::Back)?;
    let ahead = setting_at(table, Setting::Ahead)?;
    let max_drift = setting_at(table, Setting::MaxDrift)?;
    let last = last_if_any(table)?;
    let drift = drift_at(table, "drift", max_drift)?;
    let limit = setting_at(table, Setting::Limit)?;
    let failures = number_at(table, "failures", 0, limit, BookWhy::Token)?;
    Ok(TotpFields {
        hash,
        secret: secret_of(&secret),
        digits: digits_of(digits),
        t0: moment_of(t0),
        step,
        back,
        ahead,
        max_drift,
        last,
        drift,
        limit,
        failures,
    })
}

// Checks the keys of a table. Errors: `Key` if it has a key that a TOTP token does not have.
fn check_totp_keys(table: &Table) -> Result<(), BookWhy>
    ensures { result ≡ pass_or (has_only (is_among (table_keys totp_table)) (table_view table.now)) why.Key }
{
    check_keys(
        table,
        &[
            "kind",
            "hash",
            "secret",
            "digits",
            "t0",
            "step",
            "back",
            "ahead",
            "max_drift",
            "last",
            "drift",
            "limit",
            "failures",
        ],
    )
}

/// The token with these settings, which are in their ranges.
pub(crate) fn totp_token(fields: TotpFields) -> Token
    requires { IsTotpInRange fields }
    ensures { result ≡ Totp fields }
{
    let Ok(token) = Token::totp(fields) else {
        unreachable!()
    };
    token
}

// The hash function at a key. Errors: `Key` if the key is missing or its value not a text; `Token` if no hash function has the
// name.
#[tactic(auto, unfolding(crate::specs::inner::Values::hash_in))]
fn hash_at(table: &Table, key: &str) -> Result<OtpHash, BookWhy>
    ensures { result ≡ read_at key.now hash_in (table_view table.now) }
{
    let name = text_at(table, key)?;
    OtpHash::of_name(name).ok_or(BookWhy::Token)
}

// The last step, or None if there is no key `last`. Errors: `Key` if it has the wrong type; `Token` if it is out of its range.
fn last_if_any(table: &Table) -> Result<Option<u64>, BookWhy>
    ensures value { result ≡ read_some (codes "last") (setting_in Last) (table_view table.now) }
    ensures range { IfOk result (λ last. ForSome last (IsInBounds Last)) }
{
    match at(table, "last") {
        Some(value) => Ok(Some(setting_of(value, Setting::Last)?)),
        None => Ok(None),
    }
}

// The drift at a key, at most `most` steps to either side. Errors: `Key` if the key is missing or its value not a whole number;
// `Token` if the drift is greater.
#[tactic(auto, unfolding(crate::specs::inner::Values::signed_in))]
fn drift_at(table: &Table, key: &str, most: u64) -> Result<i64, BookWhy>
    ensures value { result ≡ read_at key.now (signed_in why.Token most) (table_view table.now) }
    ensures range { IfOk result (λ drift. nat_abs drift ≤ most) }
{
    let drift = required(table, key)?.as_integer().ok_or(BookWhy::Key)?;
    if drift.unsigned_abs() <= most {
        Ok(drift)
    } else {
        Err(BookWhy::Token)
    }
}
