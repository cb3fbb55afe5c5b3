//! Reads the settings that are numbers within bounds, and makes those that have types of their own, from values in their ranges.
ghost use Rattle.std.specs.Prelude.{◌≡◌, ◌≤◌, ◌⊎◌, IfOk, length};
ghost use Rattle.toml.specs.View.{view, table_view};
ghost use Rattle.otp_core.specs.Fault.{setting_name};
ghost use Rattle.otp_core.specs.Ranges.{IsInBounds, min_secret_len, IsDigitCount, IsMoment};
ghost use Rattle.book_format.specs.RowKinds.{bound_at};
ghost use Rattle.book_format.specs.inner.Values.{setting_in};
ghost use Rattle.book_format.specs.inner.Rows.{read_at, read_or_default};

use crate::fault::BookWhy;
use crate::read::field::{at, number_at, number_of};
use mac_core::Tag;
use otp_core::{Digits, Moment, Secret, Setting};
use toml::{Table, Value};

/// The setting at the key with its name. Errors: `Key` if the key is missing or its value has the wrong type; `Token` if it is a
/// number that the setting may not be.
pub(crate) fn setting_at(table: &Table, setting: Setting) -> Result<u64, BookWhy>
    ensures value { result ≡ read_at (setting_name setting) (setting_in setting) (table_view table.now) }
    ensures range { IfOk result (IsInBounds setting) }
    ensures at { IfOk result (λ n. bound_at (setting_name setting) (table_view table.now) ≡ n) }
{
    let (least, most) = setting.bounds();
    number_at(table, setting.name(), least, most, BookWhy::Token)
}

/// The setting at the key with its name, or 0 if the key is missing. Errors: `Key` if the value has the wrong type; `Token` if it
/// is a number that the setting may not be.
pub(crate) fn setting_or_zero(table: &Table, setting: Setting) -> Result<u64, BookWhy>
    ensures value { result ≡ read_or_default 0 (setting_name setting) (setting_in setting) (table_view table.now) }
    ensures range { IfOk result (λ n. IsInBounds setting n ⊎ (n ≡ 0)) }
{
    match at(table, setting.name()) {
        Some(value) => setting_of(value, setting),
        None => Ok(0),
    }
}

/// The value as a setting. Errors: `Key` if it has the wrong type; `Token` if it is a number that the setting may not be.
pub(crate) fn setting_of(value: &Value, setting: Setting) -> Result<u64, BookWhy>
    ensures value { result ≡ setting_in setting (view value.now) }
    ensures range { IfOk result (IsInBounds setting) }
{
    let (least, most) = setting.bounds();
    number_of(value, least, most, BookWhy::Token)
}

/// The secret with these bytes, at least 10.
pub(crate) fn secret_of(bytes: &Tag) -> Secret
    requires { min_secret_len ≤ length bytes.now.items }
    ensures { result ≡ bytes.now.items }
{
    let Ok(secret) = Secret::new(bytes.as_slice()) else {
        unreachable!()
    };
    secret
}

/// `count` as a number of digits, 6 to 8.
pub(crate) fn digits_of(count: u64) -> Digits
    requires { IsDigitCount count }
    ensures { result ≡ count }
{
    let Ok(digits) = Digits::new(count as u8) else {
        unreachable!()
    };
    digits
}

/// The moment `seconds` after the start of 1970.
pub(crate) fn moment_of(seconds: u64) -> Moment
    requires { IsMoment seconds }
    ensures { result ≡ seconds }
{
    let Some(moment) = Moment::new(seconds) else {
        unreachable!()
    };
    moment
}
