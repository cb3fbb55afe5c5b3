//! Readers and writers of the four messages of a SCRAM login (RFC 5802, section 7). A reader accepts exactly the texts of the
//! grammar; each of them splits into parts in one way only.
//!
//! Each reader's contract says that it returns the parts of a message, or the first fault of a text that is not one. Readers do not
//! allocate: they return slices of the message and fixed buffers. Each writer's contract says which text it appends and when it
//! fails; after an error nothing has been appended.
//!
//! When the RFC leaves a choice or sets no limit, this crate makes its own rule. Literals are case-sensitive: `N=`, `=2c` and the
//! flag `Y` are refused. A message has at most 2048 bytes, a nonce of client-first at most 256 characters and any other at most
//! 512, a salt, a proof and a verifier at most 64 bytes, and a count is at most 4294967295. A base64 text is padded and has no
//! unused bits set. An extension named `m` is mandatory: the message is read, but the receiver has to end the login as failed.
//!
//! ```rust
//! use scram_text::read_client_first;
//!
//! let message = read_client_first(b"n,,n=user,r=fyko+d2lbbFgONRv9qkxdawL")?;
//! assert_eq!(rt; message.nonce, b"fyko+d2lbbFgONRv9qkxdawL".as_slice());
//! ```
#![tactic(auto)]

mod class;
mod client_final;
mod client_first;
mod cut;
mod draft;
mod fault;
mod field;
pub mod laws;
mod name;
mod number;
mod server_final;
mod server_first;
mod values;

pub use client_final::{
    ClientFinal, ClientFinalWithoutProof, read_client_final, write_client_final,
};
pub use client_first::{
    ClientFirst, Flag, read_client_first, write_client_first, write_header_and_bare,
};
pub use draft::Draft;
pub use fault::{TextFault, TextWhy, WriteFault};
pub use name::{PlainName, SaslText, write_name};
pub use number::from_decimal;
pub use server_final::{FinalResult, ServerFinal, read_server_final, write_server_final};
pub use server_first::{ServerFirst, read_server_first, write_server_first};
pub use values::{NoncePart, Password, Salt};

/// The greatest length of a message, in bytes.
pub const MAX_MESSAGE_LEN: usize = 2048;

/// The greatest length of one end's part of the nonce, in characters.
pub const MAX_NONCE_PART_LEN: usize = 256;

/// The greatest length of a whole nonce, with the parts of both ends, in characters.
pub const MAX_NONCE_LEN: usize = 512;

/// The greatest length of a decoded channel field, in bytes: the base64 of more is longer than a message.
pub const MAX_CHANNEL_LEN: usize = 1536;

/// The greatest length of a name, in bytes.
pub const MAX_NAME_LEN: usize = 255;

/// The greatest length of a password, in bytes.
pub const MAX_PASSWORD_LEN: usize = 1024;

/// The greatest length of a salt, in bytes.
pub const MAX_SALT_LEN: usize = 64;

/// The greatest iteration count.
pub const MAX_ITERATION_COUNT: u32 = 4_294_967_295;

/// The greatest length of a proof or a signature, in bytes.
pub const MAX_TAG_LEN: usize = 64;
