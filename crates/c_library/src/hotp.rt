//! HOTP tokens.
ghost use Rattle.std.specs.Prelude.{◌≡◌, IfOk, IfErr};
ghost use Rattle.otp_core.specs.Attempt.CodeTexts.{one_text, two_texts};
ghost use Rattle.otp_core.specs.Attempt.{texts_of};
ghost use Rattle.otp_core.specs.Fault.{otp_fault_number};
ghost use Rattle.otp_core.specs.declared.token.kinds.TokenFields.TheVariants.{Hotp};
ghost use Rattle.c_library.specs.Demands.{AreMet, IsFirstFault, IsAnswered};
ghost use Rattle.c_library.specs.Tokens.{IsReplied, hotp_demands, hotp_fields, reply_number};

use otp_core::{
    Digits, HotpFields, Moment, OtpFault, Reply, Secret, SentCodes, Token, TokenFields,
};

/// The settings and the state of a HOTP token (RFC 4226, section 7), without its secret.
#[repr(C)]
#[derive(Drop)]
pub struct HotpToken {
    /// The least counter that can pass, or 2^63 - 1 if none can. State.
    pub next: u64,

    /// How many counters after `next` can also pass, at most 100.
    pub look_ahead: u64,

    /// How many counters after `next` can be the first of two codes in a row, at most 1000.
    pub sync_ahead: u64,

    /// The number of failures that locks the token, 1 to 100.
    pub limit: u64,

    /// The failures since the token last passed or was unlocked, at most `limit`. State.
    pub failures: u64,

    /// The number of digits of a code, 6 to 8.
    pub digits: u8,
}

/// Judges a code, and changes the state of the token as the reply asks for.
///
/// Returns 0 for a pass, 43 for a failure, and 44 if the token is locked. Else, with the token as before, it returns the first of
/// these that applies: 40 if the secret does not have 10 to 64 bytes, 41 for the number of digits, and 42 if another setting is
/// outside its range.
#[unsafe(no_mangle)]
pub extern "C" fn scramotp_hotp(secret: &[u8], token: &mut HotpToken, code: &[u8]) -> u32
    ensures { IsAnswered (hotp_demands secret.now token.old) result
        (IsReplied (Hotp (hotp_fields secret.now token.old)) 0 (one_text code.now) result (Hotp (hotp_fields secret.now token.new)))
        (token.new ≡ token.old) }
{
    judged(secret, token, SentCodes::One(code))
}

/// Judges two codes in a row, to find a token whose counter has run far ahead (RFC 4226, section 7.4): else as `scramotp_hotp`.
#[unsafe(no_mangle)]
pub extern "C" fn scramotp_hotp_sync(
    secret: &[u8],
    token: &mut HotpToken,
    first: &[u8],
    second: &[u8],
) -> u32
    ensures { IsAnswered (hotp_demands secret.now token.old) result
        (IsReplied (Hotp (hotp_fields secret.now token.old)) 0 (two_texts first.now second.now) result
        (Hotp (hotp_fields secret.now token.new)))
        (token.new ≡ token.old) }
{
    judged(secret, token, SentCodes::Two(first, second))
}

// Judges what was sent.
fn judged(secret: &[u8], token: &mut HotpToken, sent: SentCodes<'_>) -> u32
    ensures { IsAnswered (hotp_demands secret.now token.old) result
        (IsReplied (Hotp (hotp_fields secret.now token.old)) 0 (texts_of sent.entry) result (Hotp (hotp_fields secret.now token.new)))
        (token.new ≡ token.old) }
{
    let mut read = match read(secret, token) {
        Ok(read) => read,
        Err(fault) => return u32::from(fault.number()),
    };
    // A HOTP token is the same at each moment.
    let Some(moment) = Moment::new(0) else {
        unreachable!()
    };
    let reply = read.judge(moment, sent);
    let TokenFields::Hotp(fields) = read.fields() else {
        unreachable!()
    };
    token.next = fields.next;
    token.failures = fields.failures;
    number_of(&reply)
}

// The token with this secret and these numbers.
fn read(secret: &[u8], token: &HotpToken) -> Result<Token, OtpFault>
    ensures met { IfOk result (λ read. AreMet (hotp_demands secret.now token.now)) }
    ensures value { IfOk result (λ read. read ≡ Hotp (hotp_fields secret.now token.now)) }
    ensures fault { IfErr result (λ fault. IsFirstFault (hotp_demands secret.now token.now) (otp_fault_number fault)) }
{
    Token::hotp(HotpFields {
        secret: Secret::new(secret)?,
        digits: Digits::new(token.digits)?,
        next: token.next,
        look_ahead: token.look_ahead,
        sync_ahead: token.sync_ahead,
        limit: token.limit,
        failures: token.failures,
    })
}

/// The number of a reply: 0 for a pass, 43 for a failure, 44 if the token is locked.
pub(crate) fn number_of(reply: &Reply) -> u32
    ensures { result ≡ reply_number reply.now }
{
    match reply {
        Reply::Pass(_) => 0,
        Reply::Fail => 43,
        Reply::Locked => 44,
    }
}
