//! HOTP values (RFC 4226, section 5) and the steps of TOTP (RFC 6238, section 4.2).
ghost use Rattle.std.specs.Prelude.{◌≡◌, ◌≤◌, ◌<◌, ◌%◌, ◌^◌, ℕ, List, length, MatchOption};
ghost use Rattle.mac_core.specs.Hmac.{IsPreparedFor};
ghost use Rattle.otp_core.specs.Code.{min_tag_len, truncated, last_digits, code_of, hotp_text, IsCodeText, steps_from};
ghost use Rattle.otp_core.specs.Ranges.{max_digits};

use crate::digits::{Digits, MAX_DIGITS};
use crate::moment::Moment;
use crate::secret::Secret;
use arrayvec::ArrayVec;
use mac_core::{HashFn, Prepared, Tag};
use std::marker::Model;

// Room for the digits of a code.
const CODE_ROOM: usize = MAX_DIGITS as usize;

/// A one-time code: 6 to 8 ASCII digits. Contracts see it as the list of their bytes.
#[derive(Drop)]
pub struct Code {
    digits: ArrayVec<u8, CODE_ROOM>,
}

impl Model for Code {
    ghost Value = { List ℕ };

    ghost view = { λ c. c.digits.items };

    ghost invariant = { λ c. IsCodeText c.digits.items };
}

impl Code {
    /// The digits of the code.
    pub fn text(&self) -> &str
        ensures value { result.now ≡ self.now }
        ensures form { IsCodeText self.now }
    {
        let Ok(text) = str::from_utf8(self.digits.as_slice()) else {
            unreachable!()
        };
        text
    }
}

// The dynamic truncation of a tag (RFC 4226, section 5.3): the four bytes at its offset, as a number without the top bit.
fn truncated_number(tag: &[u8]) -> u32
    requires { min_tag_len ≤ length tag.now }
    ensures { result ≡ truncated tag.now }
{
    let at = usize::from(tag[tag.len() - 1] & 15);
    u32::from_be_bytes([tag[at], tag[at + 1], tag[at + 2], tag[at + 3]]) & 0x7fff_ffff
}

// The last `count` decimal digits of a number in ASCII, with leading zeros.
fn digits_of(mut number: u32, count: usize) -> ArrayVec<u8, CODE_ROOM>
    requires { count ≤ max_digits }
    ensures { result.items ≡ last_digits count number }
{
    let mut digits = ArrayVec::new();
    for place in 0..count {
        digits.insert(0, b'0' + (number % 10) as u8);
        number /= 10;
    }
    digits
}

/// The code of a tag (RFC 4226, section 5.3): its dynamic truncation modulo 10 ^ `digits`, written in that many digits, with
/// leading zeros. The tag has at least 20 bytes; the offset is in its last byte.
pub fn truncate(tag: &Tag, digits: Digits) -> Code
    requires { min_tag_len ≤ length tag.now.items }
    ensures { result ≡ code_of digits tag.now.items }
{
    let count = digits.count();
    let number = truncated_number(tag.as_slice()) % 10u32.pow(u32::from(count));
    Code {
        digits: digits_of(number, usize::from(count)),
    }
}

/// The HOTP value of `counter` under a key that was prepared once (RFC 4226, section 5.3). If `counter` is a result of `step` and
/// `H` is the token's hash function, it is the TOTP value (RFC 6238, section 4.2).
pub fn hotp_with<H: HashFn>(prepared: &Prepared<H>, counter: u64, digits: Digits) -> Code
    ensures { (key : List ℕ) → IsPreparedFor H.holds H.digest_of H.BLOCK prepared.now key
        → result ≡ hotp_text H.digest_of H.BLOCK digits key counter }
{
    truncate(&prepared.mac(&counter.to_be_bytes()), digits)
}

/// The HOTP value of `counter` under `secret` (RFC 4226, section 5.3).
pub fn hotp<H: HashFn>(secret: &Secret, counter: u64, digits: Digits) -> Code
    ensures { result ≡ hotp_text H.digest_of H.BLOCK digits secret.now counter }
{
    hotp_with(&Prepared::<H>::new(secret.bytes()), counter, digits)
}

/// The TOTP counter of a moment (RFC 6238, section 4.2): the number of whole steps of `x` seconds since `t0`, or None if and only
/// if the moment is before `t0`. `x` must be at least 1.
pub fn step(moment: Moment, t0: Moment, x: u64) -> Option<u64>
    requires { 1 ≤ x }
    ensures { MatchOption result
        (moment < t0)
        (λ counter. (t0 ≤ moment) × (counter ≡ steps_from t0 x moment)) }
{
    let since = moment.seconds().checked_sub(t0.seconds())?;
    Some(since / x)
}
