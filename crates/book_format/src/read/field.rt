//! Reads the values of a table: texts, whole numbers, bytes, tables.
ghost use Rattle.std.specs.Prelude.{◌≡◌, ◌≤◌, Err, Ok, option_map, ok_or, IfOk, IfSome, length};
ghost use Rattle.std.specs.List.{list_any};
ghost use Rattle.std.specs.Str.{bytes_eq};
ghost use Rattle.toml.specs.Data.{get_member};
ghost use Rattle.toml.specs.View.{view, table_view};
ghost use Rattle.hex.specs.Hex.{decode_of};
ghost use Rattle.scram_text.specs.Limits.{max_tag_len};
ghost use Rattle.book_format.specs.Keys.{has_only};
ghost use Rattle.book_format.specs.inner.Values.{number_in, bytes_in, decoded, text_in, table_of};
ghost use Rattle.book_format.specs.inner.Steps.{seen, pass_or};
ghost use Rattle.book_format.specs.RowKinds.{bound_at};
ghost use Rattle.book_format.specs.inner.Rows.{read_at, read_or};
ghost use Rattle.book_format.specs.declared.fault.BookWhy.{BookWhy};
ghost use Rattle.book_format.specs.declared.fault.BookWhy.TheVariants.{Key};

use crate::fault::BookWhy;
use arrayvec::ArrayVec;
use mac_core::Tag;
use scram_text::MAX_TAG_LEN;
use toml::{Table, Value};

/// The value at a key, or None if the key is missing.
pub(crate) fn at<'a>(table: &'a Table, key: &str) -> Option<&'a Value>
    ensures { option_map (λ v. view v.now) result ≡ get_member key.now (table_view table.now) }
{
    table.get(key)
}

/// The value at a key. Errors: `Key` if the key is missing.
pub(crate) fn required<'a>(table: &'a Table, key: &str) -> Result<&'a Value, BookWhy>
    ensures { seen (λ v. view v.now) result ≡ ok_or (get_member key.now (table_view table.now)) Key }
{
    at(table, key).ok_or(BookWhy::Key)
}

/// The value as a table. Errors: `Key` if it is not one.
pub(crate) fn table_of(value: &Value) -> Result<&Table, BookWhy>
    ensures { seen (λ t. table_view t.now) result ≡ table_of (view value.now) }
{
    value.as_table().ok_or(BookWhy::Key)
}

/// Checks the keys of a table. Errors: `Key` if it has a key that is not among these.
pub(crate) fn check_keys(table: &Table, keys: &[&str]) -> Result<(), BookWhy>
    ensures { result ≡ pass_or (has_only (λ key. list_any (λ k. bytes_eq k.now key) keys.now) (table_view table.now)) Key }
{
    if has_only(table, keys) {
        Ok(())
    } else {
        Err(BookWhy::Key)
    }
}

// Whether each key of the table is among these.
#[tactic(auto, unfolding(crate::specs::Keys::has_only))]
fn has_only(table: &Table, keys: &[&str]) -> bool
    ensures { result ≡ has_only (λ key. list_any (λ k. bytes_eq k.now key) keys.now) (table_view table.now) }
{
    for (key, _) in table.iter() {
        if !is_among(keys, key.as_str()) {
            return false;
        }
    }
    true
}

// Whether the key is among these.
fn is_among(keys: &[&str], key: &str) -> bool
    ensures { result ≡ list_any (λ k. bytes_eq k.now key.now) keys.now }
{
    keys.iter().any(|known| *known == key)
}

/// The text at a key. Errors: `Key` if the key is missing or its value has the wrong type.
#[tactic(auto, unfolding(crate::specs::inner::Values::text_in))]
pub(crate) fn text_at<'a>(table: &'a Table, key: &str) -> Result<&'a str, BookWhy>
    ensures { seen (λ t. t.now) result ≡ read_or (Err Key) text_in (get_member key.now (table_view table.now)) }
{
    required(table, key)?.as_str().ok_or(BookWhy::Key)
}

/// The value as a whole number from `least` to `most`. Errors: `Key` if it has the wrong type; `why` if it is another number.
#[tactic(auto, unfolding(crate::specs::inner::Values::number_in))]
pub(crate) fn number_of(value: &Value, least: u64, most: u64, why: BookWhy) -> Result<u64, BookWhy>
    ensures value { result ≡ number_in why least most (view value.now) }
    ensures least { IfOk result (λ n. least ≤ n) }
    ensures most { IfOk result (λ n. n ≤ most) }
{
    let number = value.as_integer().ok_or(BookWhy::Key)?;
    if number < 0 {
        return Err(why);
    }
    let number = number as u64;
    if least <= number && number <= most {
        Ok(number)
    } else {
        Err(why)
    }
}

/// The whole number from `least` to `most` at a key. Errors: `Key` if the key is missing or its value has the wrong type; `why` if
/// it is another number.
#[tactic(auto, unfolding(crate::specs::inner::Values::number_in))]
pub(crate) fn number_at(
    table: &Table,
    key: &str,
    least: u64,
    most: u64,
    why: BookWhy,
) -> Result<u64, BookWhy>
    ensures value { result ≡ read_at key.now (number_in why least most) (table_view table.now) }
    ensures least { IfOk result (λ n. least ≤ n) }
    ensures most { IfOk result (λ n. n ≤ most) }
    ensures at { IfOk result (λ n. bound_at key.now (table_view table.now) ≡ n) }
{
    number_of(required(table, key)?, least, most, why)
}

// The bytes of a hexadecimal text in either case, or None if it is not one of `least` to `most` bytes.
fn bytes_within(least: usize, most: usize, text: &str) -> Option<Tag>
    requires { most ≤ max_tag_len }
    ensures value { (why : BookWhy) → ok_or (option_map (λ bytes. bytes.items) result) why ≡ decoded why least most (decode_of text.now) }
    ensures least { IfSome result (λ bytes. least ≤ length bytes.items) }
    ensures most { IfSome result (λ bytes. length bytes.items ≤ most) }
{
    let count = text.len() / 2;
    if count < least || most < count {
        return None;
    }
    let mut buffer = [0; MAX_TAG_LEN];
    hex::decode_to_slice(text, &mut buffer[..count]).ok()?;
    ArrayVec::try_from(&buffer[..count]).ok()
}

/// The `least` to `most` bytes whose hexadecimal text, in either case, is at a key. Errors: `Key` if the key is missing or its
/// value has the wrong type; `why` if it is another text.
#[tactic(auto, unfolding(crate::specs::inner::Values::bytes_in, crate::specs::inner::Values::text_in))]
pub(crate) fn bytes_at(
    table: &Table,
    key: &str,
    least: usize,
    most: usize,
    why: BookWhy,
) -> Result<Tag, BookWhy>
    requires { most ≤ max_tag_len }
    ensures value { seen (λ v. v.items) result ≡ read_at key.now (bytes_in why least most) (table_view table.now) }
    ensures least { IfOk result (λ bytes. least ≤ length bytes.items) }
    ensures most { IfOk result (λ bytes. length bytes.items ≤ most) }
{
    let text = text_at(table, key)?;
    bytes_within(least, most, text).ok_or(why)
}
