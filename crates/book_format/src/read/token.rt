//! Reads a token of either kind: `kind`, and the keys of that kind.
ghost use Rattle.std.specs.Prelude.{◌≡◌};
ghost use Rattle.toml.specs.View.{view, table_view};
ghost use Rattle.book_format.specs.inner.Tokens.{token_in, token_of_kind};

mod hotp;
mod setting;
mod totp;

use crate::fault::BookWhy;
use crate::read::field::{table_of, text_at};
use hotp::{hotp_of, hotp_token};
use otp_core::Token;
use toml::{Table, Value};
use totp::{totp_of, totp_token};

/// The token of a table. Errors: `Key` if the value is not a table or `kind` is missing or not a text; then those of `token_of_kind`.
#[tactic(auto, unfolding(crate::specs::inner::Tokens::token_in))]
pub(crate) fn token_of(value: &Value) -> Result<Token, BookWhy>
    ensures { result ≡ token_in (view value.now) }
{
    let table = table_of(value)?;
    let kind = text_at(table, "kind")?;
    token_of_kind(kind, table)
}

// The token of the kind with this name. Errors: `Token` if no kind has the name, else the fault of the first key at fault.
#[tactic(auto, unfolding(crate::specs::inner::Tokens::token_of_kind))]
fn token_of_kind(kind: &str, table: &Table) -> Result<Token, BookWhy>
    ensures { result ≡ token_of_kind kind.now (table_view table.now) }
{
    if kind == "hotp" {
        Ok(hotp_token(hotp_of(table)?))
    } else if kind == "totp" {
        Ok(totp_token(totp_of(table)?))
    } else {
        Err(BookWhy::Token)
    }
}
