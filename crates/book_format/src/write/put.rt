//! Puts values into a table. Errors of all: `AllocError` if memory runs out.
ghost use Rattle.std.specs.Prelude.{◌≡◌, OnOk, Ok, pos};
ghost use Rattle.hex.specs.Hex.{decode_of, encode_lower};
ghost use Rattle.toml.specs.Data.{string, integer};
ghost use Rattle.toml.specs.View.{view, table_view};
ghost use Rattle.book_format.specs.Put.{put_member};

use std::alloc::{AllocError, Global};
use toml::{Table, Value};

/// Puts a value at a key, instead of any that was there.
pub(crate) fn put(
    alloc: Global,
    table: &mut Table,
    key: &str,
    value: Value,
) -> Result<(), AllocError>
    ensures { OnOk result (table_view table.new ≡ put_member key.now (view value) (table_view table.old)) }
{
    let key = String::from_str(alloc, key)?;
    drop(table.insert(key, value)?);
    Ok(())
}

/// Puts a text at a key.
pub(crate) fn put_text(
    alloc: Global,
    table: &mut Table,
    key: &str,
    text: &str,
) -> Result<(), AllocError>
    ensures { OnOk result (table_view table.new ≡ put_member key.now (string text.now) (table_view table.old)) }
{
    put(alloc, table, key, Value::string(alloc, text)?)
}

/// Puts a number at a key.
pub(crate) fn put_number(
    alloc: Global,
    table: &mut Table,
    key: &str,
    number: i64,
) -> Result<(), AllocError>
    ensures { OnOk result (table_view table.new ≡ put_member key.now (integer number) (table_view table.old)) }
{
    put(alloc, table, key, Value::Integer(number))
}

/// Puts an iteration count at a key.
pub(crate) fn put_count(
    alloc: Global,
    table: &mut Table,
    key: &str,
    count: u32,
) -> Result<(), AllocError>
    ensures { OnOk result (table_view table.new ≡ put_member key.now (integer (pos count)) (table_view table.old)) }
{
    put(alloc, table, key, Value::Integer(i64::from(count)))
}

/// Puts bytes at a key as lower-case hexadecimal text, which is read as the same bytes.
pub(crate) fn put_hex(
    alloc: Global,
    table: &mut Table,
    key: &str,
    bytes: &[u8],
) -> Result<(), AllocError>
    ensures tree { OnOk result (table_view table.new
        ≡ put_member key.now (string (encode_lower bytes.now)) (table_view table.old)) }
    ensures back { decode_of (encode_lower bytes.now) ≡ Ok bytes.now }
{
    let text = hex::encode(alloc, bytes)?;
    put(alloc, table, key, Value::String(text))
}
