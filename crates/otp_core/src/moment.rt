//! Moments: when an attempt is made.
ghost use Rattle.std.specs.Prelude.{◌≡◌, ℕ, MatchOption};
ghost use Rattle.otp_core.specs.Ranges.{IsMoment};

use std::marker::Model;

/// The last moment, in seconds since 1970-01-01 00:00 UTC: the last second of the year 9999.
pub const MAX_MOMENT: u64 = 253_402_300_799;

/// A moment: whole seconds since 1970-01-01 00:00 UTC, at most 253402300799, the last second of the year 9999. Contracts see it as
/// that number.
#[derive(Clone, Copy, Debug, PartialEq, Eq)]
pub struct Moment {
    seconds: u64,
}

impl Model for Moment {
    ghost Value = { ℕ };

    ghost view = { λ m. m.seconds };

    ghost invariant = { λ m. IsMoment m.seconds };

    ghost inverse = { λ seconds. record { seconds = seconds } };
}

impl Moment {
    /// The moment `seconds` after the start of 1970 (UTC), or None if and only if `seconds` is more than 253402300799.
    pub fn new(seconds: u64) -> Option<Moment>
        ensures { MatchOption result
            (IsMoment seconds → ⊥)
            (λ moment. (moment ≡ seconds) × IsMoment seconds) }
    {
        if seconds <= MAX_MOMENT {
            Some(Moment { seconds })
        } else {
            None
        }
    }

    /// The seconds since the start of 1970 (UTC), at most 253402300799.
    pub fn seconds(self) -> u64
        ensures value { result ≡ self }
        ensures range { IsMoment self }
    {
        self.seconds
    }
}

/// A law: a moment is in its range. Only proofs need it.
pub fn law_of_moments(moment: Moment)
    ensures { IsMoment moment }
{
    moment.seconds();
}
