//! TOTP tokens.
ghost use Rattle.std.specs.Prelude.{◌≡◌, IfOk, IfErr, IfSome, IfNone, Some};
ghost use Rattle.std.specs.Option.{ForSome};
ghost use Rattle.otp_core.specs.Attempt.CodeTexts.{one_text};
ghost use Rattle.otp_core.specs.Ranges.{IsInBounds};
ghost use Rattle.otp_core.specs.declared.fault.Setting.TheVariants.{Last};
ghost use Rattle.otp_core.specs.declared.hash.OtpHash.{OtpHash};
ghost use Rattle.otp_core.specs.declared.token.kinds.TokenFields.TheVariants.{Totp};
ghost use Rattle.c_library.specs.Demands.{AreMet, IsFirstFault, IsAnswered};
ghost use Rattle.c_library.specs.Numbers.{fault_number};
ghost use Rattle.c_library.specs.Tokens.{IsNoHash, IsReplied, hash_number, last_of, totp_demands, totp_fields};

use crate::fault::Fault;
use crate::hotp::number_of;
use otp_core::{Digits, Moment, OtpHash, Secret, Token, TokenFields, TotpFields};

/// The settings and the state of a TOTP token (RFC 6238), without its secret.
#[repr(C)]
#[derive(Drop)]
pub struct TotpToken {
    /// The moment at which step 0 begins, in seconds since 1970.
    pub t0: u64,

    /// The length of a step in seconds, 1 to 3600.
    pub step: u64,

    /// How many steps before the present one, moved by `drift`, can pass, at most 10.
    pub back: u64,

    /// How many steps after the present one, moved by `drift`, can pass, at most 10.
    pub ahead: u64,

    /// How far a step that passes may be from the present one, at most 100 steps.
    pub max_drift: u64,

    /// The greatest step that has passed, or 2^64 - 1 if none has. State.
    pub last: u64,

    /// By how many steps the token's clock is ahead, as the last pass showed. State.
    pub drift: i64,

    /// The number of failures that locks the token, 1 to 100.
    pub limit: u64,

    /// The failures since the token last passed or was unlocked, at most `limit`. State.
    pub failures: u64,

    /// The hash function: 1 for SHA-1, 256 for SHA-256, 512 for SHA-512.
    pub hash: u32,

    /// The number of digits of a code, 6 to 8.
    pub digits: u8,
}

/// Judges a code at a moment, in seconds since 1970, and changes the state of the token as the reply asks for.
///
/// Returns 0 for a pass, 43 for a failure, and 44 if the token is locked. Else, with the token as before, it returns the first of
/// these that applies: 94 if there is no such hash function, 40 if the secret does not have 10 to 64 bytes, 41 for the number of
/// digits, 95 if `t0` or the moment is after the year 9999, and 42 if another setting is outside its range.
#[unsafe(no_mangle)]
pub extern "C" fn scramotp_totp(
    secret: &[u8],
    token: &mut TotpToken,
    moment: u64,
    code: &[u8],
) -> u32
    ensures hash { IsNoHash token.old.hash → (result ≡ 94) × (token.new ≡ token.old) }
    ensures answer { (hash : OtpHash) → token.old.hash ≡ hash_number hash → IsAnswered (totp_demands hash secret.now token.old moment) result
        (IsReplied (Totp (totp_fields hash secret.now token.old)) moment (one_text code.now) result
        (Totp (totp_fields hash secret.now token.new)))
        (token.new ≡ token.old) }
    ensures same_hash { token.new.hash ≡ token.old.hash }
{
    let Some(hash) = hash_of(token.hash) else {
        return Fault::Hash.number();
    };
    let (mut read, moment) = match read(hash, secret, token, moment) {
        Ok(read) => read,
        Err(fault) => return fault.number(),
    };
    let reply = read.attempt(moment, code);
    let TokenFields::Totp(fields) = read.fields() else {
        unreachable!()
    };
    token.last = number_of_last(fields.last);
    token.drift = fields.drift;
    token.failures = fields.failures;
    number_of(&reply)
}

// The token with this hash function, this secret and these numbers, and the moment.
fn read(
    hash: OtpHash,
    secret: &[u8],
    token: &TotpToken,
    moment: u64,
) -> Result<(Token, Moment), Fault>
    ensures met { IfOk result (λ read. AreMet (totp_demands hash secret.now token.now moment)) }
    ensures value { IfOk result (λ read. read.0 ≡ Totp (totp_fields hash secret.now token.now)) }
    ensures moment { IfOk result (λ read. read.1 ≡ moment) }
    ensures fault { IfErr result (λ fault. IsFirstFault (totp_demands hash secret.now token.now moment) (fault_number fault)) }
{
    let (secret, digits) = (Secret::new(secret)?, Digits::new(token.digits)?);
    let (Some(t0), Some(moment)) = (Moment::new(token.t0), Moment::new(moment)) else {
        return Err(Fault::Moment);
    };
    let read = Token::totp(TotpFields {
        hash,
        secret,
        digits,
        t0,
        step: token.step,
        back: token.back,
        ahead: token.ahead,
        max_drift: token.max_drift,
        last: last_of(token.last),
        drift: token.drift,
        limit: token.limit,
        failures: token.failures,
    })?;
    Ok((read, moment))
}

// The hash function of this number, or None if there is none.
fn hash_of(number: u32) -> Option<OtpHash>
    ensures some { IfSome result (λ hash. number ≡ hash_number hash) }
    ensures every { (hash : OtpHash) → number ≡ hash_number hash → result ≡ Some hash }
    ensures none { IfNone result (IsNoHash number) }
{
    match number {
        1 => Some(OtpHash::Sha1),
        256 => Some(OtpHash::Sha256),
        512 => Some(OtpHash::Sha512),
        _ => None,
    }
}

// The last step of this number.
fn last_of(number: u64) -> Option<u64>
    ensures { result ≡ last_of number }
{
    if number == u64::MAX {
        None
    } else {
        Some(number)
    }
}

// The number of a last step.
fn number_of_last(last: Option<u64>) -> u64
    requires { ForSome last (IsInBounds Last) }
    ensures { last_of result ≡ last }
{
    match last {
        Some(last) => last,
        None => u64::MAX,
    }
}
