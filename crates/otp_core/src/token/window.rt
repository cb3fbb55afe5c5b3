//! The counters that can pass at a moment, as one range.
ghost use Rattle.std.specs.Prelude.{◌≡◌, ◌≤◌, ◌<◌, ◌↔◌, ◌+◌, ℕ, pos, ◌-ℤ◌, [], nat_abs};
ghost use Rattle.std.specs.Option.{ForSome};
ghost use Rattle.otp_core.specs.TokenRanges.{IsHotpInRange, IsTotpInRange, IsInRange};
ghost use Rattle.otp_core.specs.Window.{IsInHotpWindow, IsInTotpWindow, IsCandidate};
ghost use Rattle.otp_core.specs.inner.Passes.{IsOneOf};
ghost use Rattle.otp_core.specs.Ranges.{IsMoment, max_moment, max_counter, max_window_steps, max_drift_bound};

use crate::code::step;
use crate::moment::Moment;
use crate::token::kinds::{HotpFields, MAX_COUNTER, TokenFields, TotpFields};

/// The counters from `first` up to but not including `end`.
#[derive(Clone, Copy)]
pub(crate) struct Counters {
    pub(crate) first: u64,
    pub(crate) end: u64,
}

/// The counters that can pass at a moment.
pub(crate) fn candidates(token: &TokenFields, moment: Moment) -> Counters
    requires range { IsInRange token.now }
    requires moment { IsMoment moment }
    ensures { (c : ℕ) → IsCandidate token.now [] moment c ↔ IsOneOf result c }
{
    match token {
        TokenFields::Hotp(token) => hotp_candidates(token),
        TokenFields::Totp(token) => match step(moment, token.t0, token.step) {
            Some(now) => totp_candidates(token, now),
            None => Counters { first: 0, end: 0 },
        },
    }
}

// The counters from `next` to `look_ahead` after it, up to the greatest that can pass.
fn hotp_candidates(token: &HotpFields) -> Counters
    requires { IsHotpInRange token.now }
    ensures { (c : ℕ) → IsInHotpWindow token.now.next token.now.look_ahead c ↔ IsOneOf result c }
{
    Counters {
        first: token.next,
        end: (token.next + token.look_ahead).min(MAX_COUNTER) + 1,
    }
}

/// The counters that can be the first of a pair that passes.
pub(crate) fn pair_candidates(token: &HotpFields) -> Counters
    requires { IsHotpInRange token.now }
    ensures pairs { (c : ℕ) → (IsInHotpWindow token.now.next token.now.sync_ahead c × (c + 1 ≤ max_counter))
        ↔ IsOneOf result c }
    ensures most { result.end ≤ max_counter }
{
    Counters {
        first: token.next,
        end: (token.next + token.sync_ahead).min(MAX_COUNTER - 1) + 1,
    }
}

// By how many steps a clock is fast, and by how many it is slow; at least one of them is 0.
fn fast_and_slow(drift: i64) -> (u64, u64)
    requires { nat_abs drift ≤ max_drift_bound }
    ensures value { drift ≡ pos result.0 -ℤ pos result.1 }
    ensures fast { result.0 ≤ max_drift_bound }
    ensures slow { result.1 ≤ max_drift_bound }
{
    if drift < 0 {
        (0, drift.unsigned_abs())
    } else {
        (drift.unsigned_abs(), 0)
    }
}

// The steps from `back` before to `ahead` after the present one, moved by the drift, but at most `max_drift` from the present one.
fn totp_window(now: u64, drift: i64, back: u64, ahead: u64, max_drift: u64) -> Counters
    requires now { now ≤ max_moment }
    requires drift { nat_abs drift ≤ max_drift_bound }
    requires back { back ≤ max_window_steps }
    requires ahead { ahead ≤ max_window_steps }
    requires max_drift { max_drift ≤ max_drift_bound }
    ensures { (w : ℕ) → IsInTotpWindow now drift back ahead max_drift w ↔ IsOneOf result w }
{
    let (fast, slow) = fast_and_slow(drift);
    let first = (now + fast).saturating_sub(slow + back);
    let end = (now + fast + ahead + 1).saturating_sub(slow);
    Counters {
        first: first.max(now.saturating_sub(max_drift)),
        end: end.min(now + max_drift + 1),
    }
}

// The steps near the present one that are after the last one that passed.
fn totp_candidates(token: &TotpFields, now: u64) -> Counters
    requires range { IsTotpInRange token.now }
    requires now { now ≤ max_moment }
    ensures { (w : ℕ) → (IsInTotpWindow now token.now.drift token.now.back token.now.ahead token.now.max_drift w
        × ForSome token.now.last (λ l. l < w)) ↔ IsOneOf result w }
{
    let near = totp_window(now, token.drift, token.back, token.ahead, token.max_drift);
    let first = match token.last {
        Some(last) => near.first.max(last + 1),
        None => near.first,
    };
    Counters {
        first,
        end: near.end,
    }
}
