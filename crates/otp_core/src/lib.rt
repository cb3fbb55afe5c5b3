//! HOTP (RFC 4226) and TOTP (RFC 6238) codes, and tokens that judge them.
//!
//! Contracts say that a code is the RFC's formula applied to the arguments, and that each reply of a token is the one due after all
//! earlier attempts (`Token::attempt`, `Token::sync` for two codes in a row, and `Token::judge` for either). No call allocates.
//!
//! ```rust
//! use mac_core::HSha1;
//! use otp_core::{Digits, Secret, hotp};
//!
//! let secret = Secret::new(b"12345678901234567890")?;
//! let code = hotp::<HSha1>(&secret, 0, Digits::new(6)?);
//! assert_eq!(rt; code.text(), "755224");
//! ```
#![tactic(auto)]

mod code;
mod digits;
mod fault;
mod hash;
pub mod laws;
mod moment;
mod secret;
mod sent;
mod token;

pub use code::{Code, hotp, hotp_with, step, truncate};
pub use digits::{Digits, MAX_DIGITS, MIN_DIGITS};
pub use fault::{OtpFault, Setting};
pub use hash::OtpHash;
pub use moment::{MAX_MOMENT, Moment, law_of_moments};
pub use secret::{MAX_SECRET_LEN, MIN_SECRET_LEN, Secret};
pub use sent::SentCodes;
pub use token::{
    HotpFields, MAX_COUNTER, MAX_DRIFT_BOUND, MAX_LIMIT, MAX_LOOK_AHEAD, MAX_STEP, MAX_SYNC_AHEAD,
    MAX_WINDOW_STEPS, Reply, Token, TokenFields, TotpFields,
};
