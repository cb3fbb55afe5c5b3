//! Why a text is not a message, and why a message is not written.
ghost use Rattle.std.specs.Prelude.{◌≡◌};
ghost use Rattle.scram_text.specs.Faults.{text_why_number, write_fault_number};

use thiserror::Error;

/// What is wrong with a text, with the fault's number.
#[derive(Clone, Copy, Debug, PartialEq, Eq, Error)]
pub enum TextWhy {
    /// It has more than 2048 bytes.
    #[error("more than 2048 bytes: send a shorter message")]
    TooLong = 1,

    /// It contains a NUL, or is not UTF-8.
    #[error("a NUL or bytes that are not UTF-8: send a text")]
    NotText = 2,

    /// It has fewer parts than the message must have.
    #[error("a part is missing: send each part that the message must have")]
    Missing = 3,

    /// The part is not `n`, `y` or `p=` and a channel binding's name.
    #[error("the flag is not `n`, `y` or `p=` and a name")]
    Flag = 4,

    /// The part is neither empty nor `a=` and a saslname.
    #[error("the authorisation name is not `a=` and a name: write `,` as `=2C` and `=` as `=3D`")]
    Authzid = 5,

    /// The part begins with `m=` and has no value.
    #[error("the mandatory extension has no value")]
    Mandatory = 6,

    /// The part is not `n=` and a saslname.
    #[error("the name is not `n=` and a name: write `,` as `=2C` and `=` as `=3D`")]
    Name = 7,

    /// The part is not `r=` and printable characters within the message's limit.
    #[error("the nonce is not `r=` and printable characters, or is too long")]
    Nonce = 8,

    /// The part is not `s=` and the base64 of 1 to 64 bytes.
    #[error("the salt is not `s=` and the base64 of 1 to 64 bytes")]
    Salt = 9,

    /// The part is not `i=` and a count from 1 to 4294967295 with no leading zero.
    #[error("the count is not `i=` and a number from 1 to 4294967295")]
    Count = 10,

    /// The part is not `c=` and the base64 of 1 to 1536 bytes.
    #[error("the channel field is not `c=` and the base64 of 1 to 1536 bytes")]
    Channel = 11,

    /// The part is not a letter, `=` and a value.
    #[error("an extension is not a letter, `=` and a value")]
    Extension = 12,

    /// The last part is not `p=` and the base64 of 1 to 64 bytes.
    #[error("the proof is not `p=` and the base64 of 1 to 64 bytes")]
    Proof = 13,

    /// The part does not begin with `e=`, and is not `v=` and the base64 of 1 to 64 bytes.
    #[error("the verifier is not `v=` and the base64 of 1 to 64 bytes")]
    Verifier = 14,

    /// The part is `e=` with no value.
    #[error("the error value is empty")]
    ErrorValue = 15,
}

impl TextWhy {
    /// The fault's number, 1 to 15.
    pub fn number(&self) -> u16
        ensures { result ≡ text_why_number self.now }
    {
        *self as u16
    }
}

/// Why a text is not a message: a fault of the whole text, else a missing part, else the first part from the left that does not
/// have its form.
#[derive(Clone, Copy, Debug, PartialEq, Eq, Error)]
#[error("part {part}: {why}")]
pub struct TextFault {
    /// The index of the part, from 0. It is 0 if the whole text is at fault, and the number of parts if one is missing.
    pub part: usize,

    /// What is wrong there.
    pub why: TextWhy,
}

impl TextFault {
    /// The fault's number, 1 to 15.
    pub fn number(&self) -> u16
        ensures { result ≡ text_why_number self.now.why }
    {
        self.why.number()
    }
}

/// Why a message is not written. The vector to which it would have been appended is unchanged.
#[derive(Clone, Copy, Debug, PartialEq, Eq, Error)]
pub enum WriteFault {
    /// An argument is outside its class.
    #[error("an argument is not allowed in the message: pass one within its limits")]
    Unwritable = 16,

    /// The message would have more than 2048 bytes, or a `Draft` more than it can hold.
    #[error("the message would have more than 2048 bytes: pass shorter extensions")]
    OverLimit = 17,

    /// There was no memory for the message.
    #[error("no memory for the message: reserve room for it first")]
    NoMemory = 99,
}

impl WriteFault {
    /// The fault's number: 16, 17 or 99.
    pub fn number(&self) -> u16
        ensures { result ≡ write_fault_number self.now }
    {
        *self as u16
    }
}
