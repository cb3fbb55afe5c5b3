//! Account books and their text, a TOML document with `format = 1`.
//!
//! `Contents::read` reads exactly the texts of books, and returns the first fault of any other text: of the document, of its own
//! keys, then of account after account in byte order of names. In each table unknown keys come first, then its keys in the order
//! below. Only `format`, the name of an account and the `kind` of a token come before the unknown keys. `Contents::write` writes a
//! text of the book. `laws` says that each text is that of one book or has one first fault.
//!
//! | Table | Keys |
//! |---|---|
//! | the document | `format`, `decoy_key`, `decoy_count`, `accounts` |
//! | an account | `sha1`, `sha256`, `act_as`, `token` |
//! | `sha1`, `sha256` | `salt`, `count`, `stored`, `server` |
//! | HOTP `token` | `kind`, `secret`, `digits`, `next`, `look_ahead`, `sync_ahead`, `limit`, `failures` |
//! | TOTP `token` | `kind`, `hash`, `secret`, `digits`, `t0`, `step`, `back`, `ahead`, `max_drift`, `last`, `drift`, `limit`, `failures` |
//!
//! `accounts`, each key of an account, `sync_ahead` and `last` may be missing. Bytes are hexadecimal text: both cases are read, and
//! lower case is written.
//!
//! ```rust
//! use book_format::Contents;
//!
//! let text = b"format = 1\ndecoy_count = 4096\ndecoy_key = \"00\"\n";
//! let fault = Contents::read(rt.alloc(), text).err().ok_or("a key of one byte")?;
//! assert_eq!(rt; fault.number(), 66);
//! ```
#![tactic(auto)]

mod account;
mod contents;
mod fault;
pub mod laws;
mod read;
mod write;

pub use account::{Account, MechKeys};
pub use contents::Contents;
pub use fault::{BookFault, BookWhy};
