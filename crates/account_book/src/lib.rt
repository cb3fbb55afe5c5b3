//! An account book: accounts by their names, each with SCRAM keys, names to act as and a token. Also the trait of stores for a
//! book's text.
//!
//! `Book::read` and `Book::write` read and write its text, `Book::enrol` adds an account, `Book::view` shows what a SCRAM server
//! keeps for a name, `Book::attempt` judges a code, `Book::sync` two in a row, and `Book::judge` either. A name without keys is
//! shown as a decoy. Each call's contract says which account changes and how; all others stay the same.
//!
//! ```rust
//! use account_book::Book;
//! use scram_text::{Password, PlainName, Salt};
//!
//! let mut book = Book::new(alloc, [7; 32], 4096);
//! let name = PlainName::new(b"user").ok_or("a name")?;
//! let password = Password::new(b"pencil").ok_or("a password")?;
//! let salt = Salt::new(b"0123456789abcdef").ok_or("a salt")?;
//! book.enrol(alloc, &name, &password, &salt, &salt, 4096)?;
//! let text = book.write(alloc)?;
//! ```
#![tactic(auto)]

mod book;
pub mod laws;
mod store;

pub use book::{Book, EnrolFault, SALT_LEN};
pub use book_format::{Account, BookFault, BookWhy, MechKeys};
pub use mac_core::Mechanism;
pub use otp_core::{Reply, SentCodes, Token};
pub use scram_ends::KeysView;
pub use store::{BookStore, StoreFault};
