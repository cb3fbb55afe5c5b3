//! The two kinds of tokens: their settings and state.
ghost use Rattle.std.specs.Prelude.{◌≡◌, ◌↔◌, IfSome, IfNone, IsTrue};
ghost use Rattle.std.specs.Option.{ForSome};
ghost use Rattle.otp_core.specs.Ranges.{IsInBounds};
ghost use Rattle.otp_core.specs.declared.fault.Setting.TheVariants.{Last};
ghost use Rattle.otp_core.specs.TokenRanges.{IsHotpInRange, IsTotpInRange, IsFirstOutside, hotp_ranges, totp_ranges};

use crate::digits::Digits;
use crate::fault::Setting;
use crate::hash::OtpHash;
use crate::moment::Moment;
use crate::secret::Secret;

/// The greatest `limit` of a token.
pub const MAX_LIMIT: u64 = 100;

/// The greatest counter that can pass, 2^63 - 2: the one after it still fits an `i64`, which is what a TOML number is.
pub const MAX_COUNTER: u64 = 9_223_372_036_854_775_806;

/// The greatest `look_ahead` of a HOTP token.
pub const MAX_LOOK_AHEAD: u64 = 100;

/// The greatest `sync_ahead` of a HOTP token.
pub const MAX_SYNC_AHEAD: u64 = 1000;

/// The greatest `step` of a TOTP token, in seconds.
pub const MAX_STEP: u64 = 3600;

/// The greatest `back` and the greatest `ahead` of a TOTP token, in steps.
pub const MAX_WINDOW_STEPS: u64 = 10;

/// The greatest `max_drift` of a TOTP token, in steps.
pub const MAX_DRIFT_BOUND: u64 = 100;

/// The settings and the state of a HOTP token (RFC 4226, section 7).
#[derive(Drop)]
pub struct HotpFields {
    /// The key of the token's codes.
    pub secret: Secret,

    /// The number of digits of the token's codes.
    pub digits: Digits,

    /// The least counter that can pass, or 2^63 - 1 if none can.
    pub next: u64,

    /// How many counters after `next` can also pass, at most 100 (RFC 4226, section 7.4).
    pub look_ahead: u64,

    /// How many counters after `next` can be the first of a pair that passes, at most 1000 (RFC 4226, section 7.4).
    pub sync_ahead: u64,

    /// The number of failures that locks the token, 1 to 100 (RFC 4226, section 7.3).
    pub limit: u64,

    /// The failures since the token last passed or was unlocked, at most `limit`.
    pub failures: u64,
}

impl HotpFields {
    /// The first field that is not in its range, or None if each is.
    pub(crate) fn first_outside(&self) -> Option<Setting>
        ensures some { IfSome result (IsFirstOutside (hotp_ranges self.now)) }
        ensures none { IfNone result (IsHotpInRange self.now) }
    {
        if !Setting::Next.allows(self.next) {
            Some(Setting::Next)
        } else if !Setting::LookAhead.allows(self.look_ahead) {
            Some(Setting::LookAhead)
        } else if !Setting::SyncAhead.allows(self.sync_ahead) {
            Some(Setting::SyncAhead)
        } else if !Setting::Limit.allows(self.limit) {
            Some(Setting::Limit)
        } else if self.failures > self.limit {
            Some(Setting::Failures)
        } else {
            None
        }
    }

    /// A copy of the fields.
    pub(crate) fn copy(&self) -> HotpFields
        ensures { result ≡ self.now }
    {
        HotpFields {
            secret: self.secret.copy(),
            digits: self.digits,
            next: self.next,
            look_ahead: self.look_ahead,
            sync_ahead: self.sync_ahead,
            limit: self.limit,
            failures: self.failures,
        }
    }
}

/// The settings and the state of a TOTP token (RFC 6238, sections 4 to 6).
#[derive(Drop)]
pub struct TotpFields {
    /// The hash function of the token's codes.
    pub hash: OtpHash,

    /// The key of the token's codes.
    pub secret: Secret,

    /// The number of digits of the token's codes.
    pub digits: Digits,

    /// The moment at which step 0 begins.
    pub t0: Moment,

    /// The length of a step in seconds, 1 to 3600.
    pub step: u64,

    /// How many steps before the present one, moved by `drift`, can pass, at most 10.
    pub back: u64,

    /// How many steps after the present one, moved by `drift`, can pass, at most 10.
    pub ahead: u64,

    /// How far a step that passes may be from the present one, at most 100 steps.
    pub max_drift: u64,

    /// The greatest step that has passed, at most 2^63 - 2, or None if none has.
    pub last: Option<u64>,

    /// By how many steps the token's clock is ahead, as the last pass showed: from -`max_drift` to `max_drift` (RFC 6238, section
    /// 6).
    pub drift: i64,

    /// The number of failures that locks the token, 1 to 100.
    pub limit: u64,

    /// The failures since the token last passed or was unlocked, at most `limit`.
    pub failures: u64,
}

impl TotpFields {
    /// The first field that is not in its range, or None if each is.
    pub(crate) fn first_outside(&self) -> Option<Setting>
        ensures some { IfSome result (IsFirstOutside (totp_ranges self.now)) }
        ensures none { IfNone result (IsTotpInRange self.now) }
    {
        if !Setting::Step.allows(self.step) {
            Some(Setting::Step)
        } else if !Setting::Back.allows(self.back) {
            Some(Setting::Back)
        } else if !Setting::Ahead.allows(self.ahead) {
            Some(Setting::Ahead)
        } else if !Setting::MaxDrift.allows(self.max_drift) {
            Some(Setting::MaxDrift)
        } else if !self.is_last_in_range() {
            Some(Setting::Last)
        } else if self.drift.unsigned_abs() > self.max_drift {
            Some(Setting::Drift)
        } else if !Setting::Limit.allows(self.limit) {
            Some(Setting::Limit)
        } else if self.failures > self.limit {
            Some(Setting::Failures)
        } else {
            None
        }
    }

    // Whether `last`, if there is one, is within its bounds.
    fn is_last_in_range(&self) -> bool
        ensures { IsTrue result ↔ ForSome self.now.last (IsInBounds Last) }
    {
        match self.last {
            Some(last) => Setting::Last.allows(last),
            None => true,
        }
    }

    /// A copy of the fields.
    pub(crate) fn copy(&self) -> TotpFields
        ensures { result ≡ self.now }
    {
        TotpFields {
            hash: self.hash,
            secret: self.secret.copy(),
            digits: self.digits,
            t0: self.t0,
            step: self.step,
            back: self.back,
            ahead: self.ahead,
            max_drift: self.max_drift,
            last: self.last,
            drift: self.drift,
            limit: self.limit,
            failures: self.failures,
        }
    }
}

/// The settings and the state of a token of either kind.
#[derive(Drop)]
pub enum TokenFields {
    /// The settings and the state of a HOTP token.
    Hotp(HotpFields),

    /// The settings and the state of a TOTP token.
    Totp(TotpFields),
}
