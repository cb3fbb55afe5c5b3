//! Both ends of a SCRAM login (RFC 5802, RFC 7677), without channel binding.
//!
//! A server finds the account with `first_name`, answers the client-first message with `server_first`, and the client-final message
//! with `ServerWait::finish`. That call accepts exactly the valid logins, and refuses every other one for the first reason in a
//! fixed order. `ServerWait::recorded` and `judge` give the same verdict on a recorded login, and do not allocate. `judge_login` gives
//! it in one call that copies nothing, from keys in any form that signs (`SigningKeys`).
//!
//! A client begins with `Client::start`, answers the challenge with `ClientOne::first`, and checks the server's signature with
//! `ClientTwo::last`. `honest_login` says that an honest client is accepted.
//!
//! `specs/` defines a login by its whole messages: which verdict is due to it, when it is valid, and what an honest client sends.
//! `laws` states what follows from these definitions: if the first two messages open a login, exactly one verdict is due to every
//! text received as client-final, and acceptance is due exactly to valid logins.
//!
//! ```rust
//! use scram_ends::first_name;
//!
//! let name = first_name(b"n,a=root,n=user,r=fyko+d2lbbFgONRv9qkxdawL")?;
//! assert_eq!(rt; name.bytes(), b"user".as_slice());
//! ```
#![tactic(auto)]

mod auth_message;
mod bytes;
mod client;
mod first;
mod honest;
mod kept_keys;
mod keys_view;
pub mod laws;
mod lengths;
mod other_names;
mod recorded;
mod server;
mod signing;
mod signing_keys;
mod stateless;
mod usual;
mod verdict;
mod write;

pub use auth_message::AuthMessage;
pub use client::{
    Authenticated, Client, ClientAnswer, ClientFault, ClientOne, ClientTwo, Limits, OneRefused,
    check_server,
};
pub use first::{FirstFault, first_name};
pub use honest::honest_login;
pub use kept_keys::KeptKeys;
pub use keys_view::KeysView;
pub use lengths::MAX_FIRST_LEN;
pub use mac_core::Mechanism;
pub use other_names::OtherNames;
pub use recorded::RecordedFault;
pub use server::{FirstRefused, ServerWait, server_first};
pub use signing_keys::{KeyBytes, Signatures, SigningKeys};
pub use stateless::{EntryParts, judge_login, read_first};
pub use verdict::{Judged, Refusal, Verdict};
