//! The number of digits of a token's codes.
ghost use Rattle.std.specs.Prelude.{◌≡◌, ℕ, MatchResult};
ghost use Rattle.otp_core.specs.Ranges.{IsDigitCount};
ghost use Rattle.otp_core.specs.declared.fault.OtpFault.TheVariants.{DigitCount};

use crate::fault::OtpFault;
use std::marker::Model;

/// The least number of digits of a code (RFC 4226, section 5.3).
pub const MIN_DIGITS: u8 = 6;

/// The greatest number of digits of a code (RFC 4226, section 5.3).
pub const MAX_DIGITS: u8 = 8;

/// The number of digits of a code: 6 to 8 (RFC 4226, section 5.3). Contracts see it as that number.
#[derive(Clone, Copy, Debug, PartialEq, Eq)]
pub struct Digits {
    count: u8,
}

impl Model for Digits {
    ghost Value = { ℕ };

    ghost view = { λ d. d.count };

    ghost invariant = { λ d. IsDigitCount d.count };

    ghost inverse = { λ count. record { count = count } };
}

impl Digits {
    /// `count` as a number of digits. Errors: 41 DigitCount if and only if it is below 6 or above 8.
    pub fn new(count: u8) -> Result<Digits, OtpFault>
        ensures { MatchResult result
            (λ digits. (digits ≡ count) × IsDigitCount count)
            (λ fault. (fault ≡ DigitCount) × (IsDigitCount count → ⊥)) }
    {
        if MIN_DIGITS <= count && count <= MAX_DIGITS {
            Ok(Digits { count })
        } else {
            Err(OtpFault::DigitCount)
        }
    }

    /// The number of digits, 6 to 8.
    pub fn count(self) -> u8
        ensures value { result ≡ self }
        ensures range { IsDigitCount self }
    {
        self.count
    }
}
