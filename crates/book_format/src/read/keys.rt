//! Reads what is kept for one mechanism: `salt`, `count`, `stored`, `server`.
ghost use Rattle.std.specs.Prelude.{◌≡◌, ◌≤◌, length};
ghost use Rattle.toml.specs.View.{view};
ghost use Rattle.scram_text.specs.Limits.{max_tag_len};
ghost use Rattle.book_format.specs.inner.Rows.{table_in};
ghost use Rattle.book_format.specs.inner.Tables.{keys_reading};
ghost use Rattle.book_format.specs.Tables.{keys_table};

use crate::account::MechKeys;
use crate::fault::BookWhy;
use crate::read::field::{bytes_at, check_keys, number_at, table_of};
use mac_core::{ScramKeys, Tag};
use scram_text::{MAX_ITERATION_COUNT, MAX_SALT_LEN, Salt};
use toml::Value;

/// What is kept for a mechanism whose keys have `len` bytes. Errors: `Key` if the value is not a table or a key is unknown; then
/// for the first key at fault, in the order of the keys at the head of this file: `Key` if it is missing or its value has the wrong
/// type, else `Salt`, `Count` or `KeyLength` if the value is out of its range.
#[tactic(auto, unfolding(crate::specs::inner::Rows::table_in, crate::specs::inner::Rows::read_table))]
pub(crate) fn keys_of(len: usize, value: &Value) -> Result<MechKeys, BookWhy>
    requires { len ≤ max_tag_len }
    ensures { result ≡ table_in (keys_table len) (keys_reading len) (view value.now) }
{
    let table = table_of(value)?;
    check_keys(table, &["salt", "count", "stored", "server"])?;
    let salt = bytes_at(table, "salt", 1, MAX_SALT_LEN, BookWhy::Salt)?;
    let count = number_at(
        table,
        "count",
        1,
        u64::from(MAX_ITERATION_COUNT),
        BookWhy::Count,
    )?;
    let stored = bytes_at(table, "stored", len, len, BookWhy::KeyLength)?;
    let server = bytes_at(table, "server", len, len, BookWhy::KeyLength)?;
    Ok(MechKeys {
        salt: salt_of(&salt),
        count: count as u32,
        keys: ScramKeys { stored, server },
    })
}

// The salt with these bytes, 1 to 64.
fn salt_of(bytes: &Tag) -> Salt
    requires { 1 ≤ length bytes.now.items }
    ensures { result ≡ bytes.now.items }
{
    let Some(salt) = Salt::new(bytes.as_slice()) else {
        unreachable!()
    };
    salt
}
