//! Checks and reads the values of options.
ghost use Rattle.std.specs.Prelude.{◌≡◌, ◌≢◌, ◌≤◌, ◌<◌, ◌^◌, ◌⊎◌, ℕ, List, Ok, length, IfOk, IfErr};
ghost use Rattle.std.specs.Fmt.{decimal};
ghost use Rattle.hex.specs.Hex.{decode_of};
ghost use Rattle.mac_core.specs.Mechanism.{name_of};
ghost use Rattle.otp_core.specs.Ranges.{IsSecretLength, IsDigitCount, IsMoment};
ghost use Rattle.otp_core.specs.Hash.{hash_name};
ghost use Rattle.scram_text.specs.Class.{IsNoncePart, IsPlainName, IsSalt};
ghost use Rattle.scram_text.specs.Parts.{IsCount};
ghost use Rattle.command_line.specs.Values.{Refuses};

use crate::fault::Fault;
use crate::option_name::OptionName;
use mac_core::Mechanism;
use otp_core::{Digits, MAX_DIGITS, MAX_MOMENT, MIN_DIGITS, Moment, OtpHash, Secret};
use scram_text::{MAX_ITERATION_COUNT, NoncePart, PlainName, Salt};
use std::alloc::Global;

/// The number from `least` to `most` that `text` spells in decimal: `0`, or a digit 1 to 9 and any digits. Errors: BadValue with
/// the option for any other text.
pub fn number_within(option: OptionName, text: &str, least: u64, most: u64) -> Result<u64, Fault>
    ensures ok { IfOk result (λ n. (text.now ≡ decimal n) × (least ≤ n) × (n ≤ most)) }
    ensures err { IfErr result (λ fault. (fault ≡ Fault.BadValue option)
        × ((n : ℕ) → least ≤ n → n ≤ most → text.now ≢ decimal n)) }
{
    match scram_text::from_decimal(text.as_bytes()) {
        Some(n) if least <= n && n <= most => Ok(n),
        _ => Err(Fault::BadValue(option)),
    }
}

/// The iteration count that `text` spells in decimal, 1 to 4294967295. Errors: BadValue for any other text.
pub fn count(text: &str) -> Result<u32, Fault>
    ensures ok { IfOk result (λ n. (text.now ≡ decimal n) × IsCount n) }
    ensures err { IfErr result (λ fault. (fault ≡ Fault.BadValue OptionName.Count) × Refuses OptionName.Count text.now) }
{
    let n = number_within(OptionName::Count, text, 1, u64::from(MAX_ITERATION_COUNT))?;
    Ok(n as u32)
}

/// The number of digits of a code that `text` spells, 6 to 8. Errors: BadValue for any other text.
pub fn digits(text: &str) -> Result<Digits, Fault>
    ensures ok { IfOk result (λ digits. (text.now ≡ decimal digits) × IsDigitCount digits) }
    ensures err { IfErr result (λ fault. (fault ≡ Fault.BadValue OptionName.Digits) × Refuses OptionName.Digits text.now) }
{
    let (least, most) = (u64::from(MIN_DIGITS), u64::from(MAX_DIGITS));
    let n = number_within(OptionName::Digits, text, least, most)?;
    let Ok(digits) = Digits::new(n as u8) else {
        unreachable!()
    };
    Ok(digits)
}

/// The moment that `text` spells in seconds since 1970, at most 253402300799. Errors: BadValue with the option for any other text.
pub fn moment(option: OptionName, text: &str) -> Result<Moment, Fault>
    ensures ok { IfOk result (λ moment. (text.now ≡ decimal moment) × IsMoment moment) }
    ensures err { IfErr result (λ fault. (fault ≡ Fault.BadValue option)
        × ((n : ℕ) → IsMoment n → text.now ≢ decimal n)) }
{
    let seconds = number_within(option, text, 0, MAX_MOMENT)?;
    let Some(moment) = Moment::new(seconds) else {
        unreachable!()
    };
    Ok(moment)
}

/// The account name, which is this text: 1 to 255 bytes from 0x20 to 0x7E. Errors: BadValue for any other text.
pub fn name(text: &str) -> Result<PlainName, Fault>
    ensures ok { IfOk result (λ name. (name ≡ text.now) × IsPlainName text.now) }
    ensures err { IfErr result (λ fault. (fault ≡ Fault.BadValue OptionName.Name) × Refuses OptionName.Name text.now) }
{
    plain_name(OptionName::Name, text)
}

/// The name to act as, which is this text: 1 to 255 bytes from 0x20 to 0x7E. Errors: BadValue for any other text.
pub fn authzid(text: &str) -> Result<PlainName, Fault>
    ensures ok { IfOk result (λ name. (name ≡ text.now) × IsPlainName text.now) }
    ensures err { IfErr result (λ fault. (fault ≡ Fault.BadValue OptionName.As) × Refuses OptionName.As text.now) }
{
    plain_name(OptionName::As, text)
}

/// The name of the account whose rows are reported, which is this text: 1 to 255 bytes from 0x20 to 0x7E. Errors: BadValue for any other
/// text.
pub fn account(text: &str) -> Result<PlainName, Fault>
    ensures ok { IfOk result (λ name. (name ≡ text.now) × IsPlainName text.now) }
    ensures err { IfErr result (λ fault. (fault ≡ Fault.BadValue OptionName.Account) × Refuses OptionName.Account text.now) }
{
    plain_name(OptionName::Account, text)
}

/// One end's part of the nonce, which is this text: 1 to 256 bytes from 0x21 to 0x7E, without a comma. Errors: BadValue with the
/// option for any other text.
pub fn nonce(option: OptionName, text: &str) -> Result<NoncePart, Fault>
    ensures ok { IfOk result (λ nonce. (nonce ≡ text.now) × IsNoncePart text.now) }
    ensures err { IfErr result (λ fault. (fault ≡ Fault.BadValue option)
        × (IsNoncePart text.now → ⊥)) }
{
    NoncePart::new(text.as_bytes()).ok_or(Fault::BadValue(option))
}

/// The SCRAM mechanism with this name: SCRAM-SHA-1 or SCRAM-SHA-256. Errors: BadValue for any other text.
pub fn mechanism(name: &str) -> Result<Mechanism, Fault>
    ensures ok { IfOk result (λ mechanism. name.now ≡ name_of mechanism) }
    ensures err { IfErr result (λ fault. (fault ≡ Fault.BadValue OptionName.Mechanism) × Refuses OptionName.Mechanism name.now) }
{
    Mechanism::of_name(name.as_bytes()).ok_or(Fault::BadValue(OptionName::Mechanism))
}

/// The hash function with this name: `sha1`, `sha256` or `sha512`. Errors: BadValue for any other text.
pub fn hash(name: &str) -> Result<OtpHash, Fault>
    ensures ok { IfOk result (λ hash. name.now ≡ hash_name hash) }
    ensures err { IfErr result (λ fault. (fault ≡ Fault.BadValue OptionName.Hash) × Refuses OptionName.Hash name.now) }
{
    OtpHash::of_name(name).ok_or(Fault::BadValue(OptionName::Hash))
}

/// The salt, 1 to 64 bytes, that `text` spells in hexadecimal, in either case. Errors: BadValue for any other text; NoMemory if
/// memory runs out.
pub fn salt(alloc: Global, text: &str) -> Result<Salt, Fault>
    ensures ok { IfOk result (λ salt. (decode_of text.now ≡ Ok salt) × IsSalt salt) }
    ensures err { IfErr result (λ fault. (fault ≡ Fault.NoMemory)
        ⊎ ((fault ≡ Fault.BadValue OptionName.Salt) × Refuses OptionName.Salt text.now)) }
{
    let bytes = bytes(alloc, OptionName::Salt, text)?;
    Salt::new(bytes.as_slice()).ok_or(Fault::BadValue(OptionName::Salt))
}

/// The secret, 10 to 64 bytes, that `text` spells in hexadecimal, in either case. Errors: BadValue for any other text; NoMemory if
/// memory runs out.
pub fn secret(alloc: Global, text: &str) -> Result<Secret, Fault>
    ensures ok { IfOk result (λ secret. (decode_of text.now ≡ Ok secret) × IsSecretLength (length secret)) }
    ensures err { IfErr result (λ fault. (fault ≡ Fault.NoMemory)
        ⊎ ((fault ≡ Fault.BadValue OptionName.Secret) × Refuses OptionName.Secret text.now)) }
{
    let bytes = bytes(alloc, OptionName::Secret, text)?;
    Secret::new(bytes.as_slice()).map_err(|_| Fault::BadValue(OptionName::Secret))
}

// The name, which is this text: 1 to 255 bytes from 0x20 to 0x7E. Errors: BadValue with the option for any other text.
fn plain_name(option: OptionName, text: &str) -> Result<PlainName, Fault>
    ensures ok { IfOk result (λ name. (name ≡ text.now) × IsPlainName text.now) }
    ensures err { IfErr result (λ fault. (fault ≡ Fault.BadValue option)
        × (IsPlainName text.now → ⊥)) }
{
    PlainName::new(text.as_bytes()).ok_or(Fault::BadValue(option))
}

// The bytes that `text` spells in hexadecimal, in either case. Errors: BadValue with the option for any other text; NoMemory if
// memory runs out.
fn bytes(alloc: Global, option: OptionName, text: &str) -> Result<Vec<u8>, Fault>
    ensures ok { IfOk result (λ bytes. decode_of text.now ≡ Ok bytes.items) }
    ensures err { IfErr result (λ fault. (fault ≡ Fault.NoMemory)
        ⊎ ((fault ≡ Fault.BadValue option) × ((bytes : List ℕ) → decode_of text.now ≢ Ok bytes))) }
{
    match hex::decode(alloc, text) {
        Ok(bytes) => Ok(bytes),
        Err(hex::FromHexError::OutOfMemory) => Err(Fault::NoMemory),
        Err(_) => Err(Fault::BadValue(option)),
    }
}
