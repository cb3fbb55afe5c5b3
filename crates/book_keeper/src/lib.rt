//! A book and the store of its text: each change of the book is saved before it is reported, and undone if it can't be saved.
//!
//! ```rust
//! use book_keeper::{CodeJudged, Keeper};
//! use otp_core::{Moment, SentCodes};
//! use scram_text::PlainName;
//!
//! let Ok(mut keeper) = Keeper::begin(alloc, book, store) else {
//!     return Err("no keeper".into());
//! };
//! let name = PlainName::new(b"user").ok_or("a name")?;
//! let moment = Moment::new(3).ok_or("a moment")?;
//! let judged = keeper.judge(alloc, &name, moment, SentCodes::One(b"755224"))?;
//! ```
#![tactic(auto)]

mod keeper;

pub use keeper::{CodeJudged, Keeper, SaveFault};
