//! The errors of this crate, each with its number.
ghost use Rattle.std.specs.Prelude.{◌≡◌, ◌↔◌, IsTrue};
ghost use Rattle.otp_core.specs.Fault.{otp_fault_number, setting_name};
ghost use Rattle.otp_core.specs.Ranges.{bounds_of, IsInBounds};

use crate::token::{
    MAX_COUNTER, MAX_DRIFT_BOUND, MAX_LIMIT, MAX_LOOK_AHEAD, MAX_STEP, MAX_SYNC_AHEAD,
    MAX_WINDOW_STEPS,
};
use std::fmt;
use thiserror::Error;

/// Why a secret, a number of digits or a token's setting is refused.
#[derive(Clone, Copy, Debug, PartialEq, Eq, Error)]
pub enum OtpFault {
    /// 40: the secret has fewer than 10 or more than 64 bytes.
    #[error("a secret has 10 to 64 bytes")]
    SecretLength,

    /// 41: the number of digits is below 6 or above 8.
    #[error("a code has 6 to 8 digits")]
    DigitCount,

    /// 42: this setting of the token is out of its range.
    #[error("{0} is out of range")]
    Setting(Setting),
}

impl OtpFault {
    /// The number of the error: 40 for a secret's length, 41 for a number of digits, 42 for a token's setting.
    pub fn number(&self) -> u16
        ensures { result ≡ otp_fault_number self.now }
    {
        match self {
            OtpFault::SecretLength => 40,
            OtpFault::DigitCount => 41,
            OtpFault::Setting(_) => 42,
        }
    }
}

/// A field of a token that has a range, whether one of its settings or a part of its state. Both are called settings
/// here.
#[derive(Clone, Copy, Debug, PartialEq, Eq)]
pub enum Setting {
    /// The least HOTP counter that can pass.
    Next,

    /// How many counters after HOTP's next one can also pass.
    LookAhead,

    /// How many counters after HOTP's next one can be the first of a pair that passes.
    SyncAhead,

    /// The length of a TOTP step in seconds.
    Step,

    /// How many steps before the present one, moved by the drift, can pass.
    Back,

    /// How many steps after the present one, moved by the drift, can pass.
    Ahead,

    /// How far, in steps, a step that passes may be from the present one.
    MaxDrift,

    /// The greatest TOTP step that has passed.
    Last,

    /// By how many steps the clock of a TOTP token is ahead, as the last pass showed.
    Drift,

    /// The number of failures that locks the token.
    Limit,

    /// The failures since the token last passed or was unlocked.
    Failures,
}

impl Setting {
    /// The setting's name, which is that of its field: `look_ahead`, for example.
    pub fn name(&self) -> &'static str
        ensures { result.now ≡ setting_name self.now }
    {
        match self {
            Setting::Next => "next",
            Setting::LookAhead => "look_ahead",
            Setting::SyncAhead => "sync_ahead",
            Setting::Step => "step",
            Setting::Back => "back",
            Setting::Ahead => "ahead",
            Setting::MaxDrift => "max_drift",
            Setting::Last => "last",
            Setting::Drift => "drift",
            Setting::Limit => "limit",
            Setting::Failures => "failures",
        }
    }

    /// The least and the greatest number that the setting may be; of `drift`, its distance from 0. Those of `drift` and `failures`
    /// follow from those of `max_drift` and `limit`, and are demanded nowhere by themselves: a token's `drift` is at most its
    /// `max_drift`, above or below 0, and `failures` is at most its `limit`.
    pub fn bounds(self) -> (u64, u64)
        ensures { result ≡ bounds_of self }
    {
        match self {
            Setting::Next => (0, MAX_COUNTER + 1),
            Setting::LookAhead => (0, MAX_LOOK_AHEAD),
            Setting::SyncAhead => (0, MAX_SYNC_AHEAD),
            Setting::Step => (1, MAX_STEP),
            Setting::Back => (0, MAX_WINDOW_STEPS),
            Setting::Ahead => (0, MAX_WINDOW_STEPS),
            Setting::MaxDrift => (0, MAX_DRIFT_BOUND),
            Setting::Last => (0, MAX_COUNTER),
            Setting::Drift => (0, MAX_DRIFT_BOUND),
            Setting::Limit => (1, MAX_LIMIT),
            Setting::Failures => (0, MAX_LIMIT),
        }
    }

    /// Whether a number is within the bounds of the setting.
    pub(crate) fn allows(self, number: u64) -> bool
        ensures { IsTrue result ↔ IsInBounds self number }
    {
        let (least, most) = self.bounds();
        least <= number && number <= most
    }
}

impl fmt::Display for Setting {
    ghost use Rattle.std.specs.Prelude.{Some};
    ghost use Rattle.otp_core.specs.Fault.{setting_name};

    ghost output = { λ setting. Some (setting_name setting) };

    fn fmt<W: fmt::Write>(&self, f: &mut fmt::Formatter<W>) -> fmt::Result {
        f.write_str(self.name())
    }
}
