//! A server of SCRAM logins and codes, over any store, source and sink. A *desk* serves one client after another, and a *hall* up to
//! 64 at a time. Each keeps one book and writes one log.
//!
//! `book_keeper::Keeper` holds the book and the store of its text: it judges codes, and saves each change before the reply is sent.
//! `Desk` is a keeper and at most one open session, and `Hall` a keeper and up to 64. Each call appends the lines of the log to a
//! vector that it is given. `serve` reads the lines of one client, hands them to a desk, and writes its answers.
//!
//! A server calls `greet` when a client comes, and `client` for each thing that the client does. After each call it first writes
//! what was appended to the log, and then sends what was appended to the wire: `log_then_send` does both, and `serve` all of this.
//!
//! ```rust
//! use sasl_desk::{Book, Desk, Event, Moment, Phase};
//! use scram_text::NoncePart;
//!
//! let book = Book::read(alloc, text)?;
//! let mut wire = Vec::new(alloc);
//! let mut log = Vec::new(alloc);
//! let Ok(mut desk) = Desk::begin(alloc, book, store, &mut log) else {
//!     return Err("no desk".into());
//! };
//!
//! let server_nonce = NoncePart::new(b"3rfcNHYJY1ZVvWVs7j").ok_or("a part of a nonce")?;
//! assert_eq!(rt; desk.greet(server_nonce, &mut wire, &mut log), Ok(Phase::WaitAuth));
//!
//! let line = Event::Line(b"AUTH SCRAM-SHA-1 :n,,n=user,r=fyko+d2lbbFgONRv9qkxdawL");
//! let moment = Moment::new(3).ok_or("a moment")?;
//! assert_eq!(rt; desk.client(alloc, line, moment, &mut wire, &mut log), Ok(Phase::WaitFinal));
//! ```
#![tactic(auto)]

mod clock;
mod desk;
mod fault;
mod hall;
pub mod laws;
mod serving;
mod session;
mod turn;
mod write;

pub use account_book::{Book, BookStore};
pub use book_keeper::{CodeJudged, Keeper, SaveFault};
pub use clock::Clock;
pub use desk::Desk;
pub use fault::{DeskFault, OutputFault, ServeFault};
pub use hall::Hall;
pub use otp_core::{Moment, Reply, SentCodes};
pub use serving::{log_then_send, serve, serve_turn};
pub use session::{Event, Phase};
pub use write::{MAX_CALL_BYTES, MAX_HALL_CALL_BYTES, MAX_SENT_BYTES};
