//! Tokens of either kind, with each field within its range.
ghost use Rattle.std.specs.Prelude.{◌≡◌, MatchResult};
ghost use Rattle.otp_core.specs.TokenRanges.{IsHotpInRange, IsTotpInRange, IsInRange, IsRefusalOf, hotp_ranges, totp_ranges};
ghost use Rattle.otp_core.specs.Attempt.CodeTexts.{one_text, two_texts};
ghost use Rattle.otp_core.specs.Attempt.{texts_of};
ghost use Rattle.otp_core.specs.State.{unlocked};
ghost use Rattle.otp_core.specs.TokenAttempt.{IsTokenAttempt};
ghost use Rattle.otp_core.specs.declared.token.kinds.TokenFields.TheVariants.{Hotp, Totp};

mod kinds;
mod reply;
mod window;

use crate::fault::OtpFault;
use crate::moment::{Moment, law_of_moments};
use crate::sent::SentCodes;
pub use kinds::{
    HotpFields, MAX_COUNTER, MAX_DRIFT_BOUND, MAX_LIMIT, MAX_LOOK_AHEAD, MAX_STEP, MAX_SYNC_AHEAD,
    MAX_WINDOW_STEPS, TokenFields, TotpFields,
};
pub use reply::Reply;
use reply::{judge_one, judge_pair};
use std::marker::Model;

/// A HOTP or a TOTP token: its settings and its state, each within its range. Contracts see it as its `TokenFields`.
#[derive(Drop)]
pub struct Token {
    fields: TokenFields,
}

impl Model for Token {
    ghost use Rattle.otp_core.specs.declared.token.kinds.TokenFields.{TokenFields};

    ghost Value = { TokenFields };

    ghost use Rattle.otp_core.specs.TokenRanges.{IsInRange};

    ghost view = { λ t. t.fields };

    ghost invariant = { λ t. IsInRange t.fields };
}

impl Token {
    /// The HOTP token with these fields. Errors: 42 Setting with the first field that is out of its range, if and only if there is
    /// one.
    pub fn hotp(fields: HotpFields) -> Result<Token, OtpFault>
        ensures { MatchResult result
            (λ token. (token ≡ Hotp fields) × IsHotpInRange fields)
            (IsRefusalOf (hotp_ranges fields)) }
    {
        match fields.first_outside() {
            Some(setting) => Err(OtpFault::Setting(setting)),
            None => Ok(Token {
                fields: TokenFields::Hotp(fields),
            }),
        }
    }

    /// The TOTP token with these fields. Errors: 42 Setting with the first field that is out of its range, if and only if there is
    /// one.
    pub fn totp(fields: TotpFields) -> Result<Token, OtpFault>
        ensures { MatchResult result
            (λ token. (token ≡ Totp fields) × IsTotpInRange fields)
            (IsRefusalOf (totp_ranges fields)) }
    {
        match fields.first_outside() {
            Some(setting) => Err(OtpFault::Setting(setting)),
            None => Ok(Token {
                fields: TokenFields::Totp(fields),
            }),
        }
    }

    /// The token's settings and state.
    pub fn fields(&self) -> &TokenFields
        ensures value { result.now ≡ self.now }
        ensures range { IsInRange self.now }
    {
        &self.fields
    }

    /// A copy of the token.
    pub fn copy(&self) -> Token
        ensures { result ≡ self.now }
    {
        let fields = match &self.fields {
            TokenFields::Hotp(fields) => TokenFields::Hotp(fields.copy()),
            TokenFields::Totp(fields) => TokenFields::Totp(fields.copy()),
        };
        Token { fields }
    }

    /// Judges `text` as a code at `moment` (RFC 4226, section 7, and RFC 6238, sections 5.2 and 6): `Locked` if the failures have
    /// reached the limit; else `Pass` with the least counter that can pass and whose code is the text; else `Fail`. So no counter
    /// passes twice. For every start and history that lead to this token, the reply is the one due after them; with this attempt
    /// added to the history, they lead to the token after the call.
    ///
    /// The reply decides how the fields change. A HOTP pass moves `next` to the counter after the one that passed. A TOTP pass sets
    /// `last` to the step that passed, and `drift` to the number of steps by which it is ahead of the present step. Both set the
    /// failures to 0. `Fail` adds one to the failures; `Locked` changes nothing. A counter that passes is at most 2^63 - 2.
    pub fn attempt(&mut self, moment: Moment, text: &[u8]) -> Reply
        ensures { IsTokenAttempt self.old moment (one_text text.now) result self.new }
    {
        self.judge(moment, SentCodes::One(text))
    }

    /// Judges two texts as codes in a row at `moment`, to find a HOTP counter that has run far ahead (RFC 4226, section 7.4):
    /// `Locked` if the failures have reached the limit; else `Pass` if the texts are the codes of two counters in a row, the first
    /// of which is `next` or one of the `sync_ahead` counters after it; else `Fail`. `Pass` contains the second counter of the
    /// least such pair. Two codes never pass with a TOTP token. For every start and history that lead to this token, the reply is
    /// the one due after them; with this attempt added to the history, they lead to the token after the call. Both counters of a
    /// pair that passed are used.
    ///
    /// The fields change as in `attempt`, and a counter that passes is at most 2^63 - 2. The call computes at most `sync_ahead` + 2
    /// codes (no clause says so).
    pub fn sync(&mut self, moment: Moment, first: &[u8], second: &[u8]) -> Reply
        ensures { IsTokenAttempt self.old moment (two_texts first.now second.now) result self.new }
    {
        self.judge(moment, SentCodes::Two(first, second))
    }

    /// Judges what was sent, at `moment`: one text as `attempt` does, two as `sync` does.
    pub fn judge(&mut self, moment: Moment, sent: SentCodes<'_>) -> Reply
        ensures { IsTokenAttempt self.old moment (texts_of sent.entry) result self.new }
    {
        law_of_moments(moment);
        match sent {
            SentCodes::One(text) => judge_one(&mut self.fields, moment, text),
            SentCodes::Two(first, second) => judge_pair(&mut self.fields, moment, first, second),
        }
    }

    /// Sets the failures to 0 and changes nothing else.
    pub fn unlock(&mut self)
        ensures { self.new ≡ unlocked self.old }
    {
        match &mut self.fields {
            TokenFields::Hotp(fields) => fields.failures = 0,
            TokenFields::Totp(fields) => fields.failures = 0,
        }
    }
}
