//! The moving factor of a one-time code: what changes from code to code (RFC 4226, section 5.1; RFC 6238, section 4).
ghost use Rattle.std.specs.Prelude.{◌≤◌};

use otp_core::{Moment, OtpHash};

/// A moment of TOTP, its hash function, and how its steps are counted (RFC 6238, section 4).
#[derive(Drop)]
pub struct TotpInput {
    /// The hash function of its HMAC.
    pub hash: OtpHash,

    /// The moment for which the code is made.
    pub moment: Moment,

    /// The moment at which step 0 begins (the RFC's T0).
    pub t0: Moment,

    /// The length of a step in seconds, at least 1 (the RFC's X).
    pub step: u64,

    ghost at_least: { 1 ≤ step },
}

/// What a code is made from, besides its secret.
#[derive(Drop)]
pub enum MovingFactor {
    /// The counter of a HOTP code.
    Counter(u64),

    /// The time of a TOTP code.
    Time(TotpInput),
}
