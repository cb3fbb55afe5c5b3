//! Why a call does nothing.
ghost use Rattle.std.specs.Prelude.{◌≡◌};
ghost use Rattle.c_library.specs.Numbers.{fault_number};
ghost use Rattle.c_library.specs.declared.fault.Fault.TheVariants.{Otp};

use otp_core::OtpFault;
use scram_ends::{ClientFault, FirstFault, RecordedFault};

/// Why a call does nothing: the first of its demands that its arguments do not meet.
#[derive(Clone, Copy, Debug, PartialEq, Eq)]
pub enum Fault {
    /// The client-first message is refused.
    First(FirstFault),

    /// The first two messages open no login of the entry.
    Recorded(RecordedFault),

    /// A client does not answer the challenge, or the server's last message does not show that it has the keys.
    Client(ClientFault),

    /// The name is not 1 to 255 bytes from 0x20 to 0x7E.
    Name,

    /// The salt does not have 1 to 64 bytes.
    Salt,

    /// The iteration count is 0.
    Count,

    /// The keys do not have the length of the mechanism's digests.
    KeyLength,

    /// There is no mechanism of this number.
    Mechanism,

    /// The password is not 1 to 1024 bytes from 0x20 to 0x7E.
    Password,

    /// A part of the nonce is not 1 to 256 printable characters.
    NoncePart,

    /// The caller's buffer is shorter than the message.
    NoRoom,

    /// There is no hash function of this number.
    Hash,

    /// A moment is after the year 9999.
    Moment,

    /// The text is no verifier.
    Verifier,

    /// There is no spelling of this number.
    Spelling,

    /// There is no kind of line of this number.
    Kind,

    /// What a line has is not in its ranges.
    NoLine,

    /// A line is too long.
    LongLine,

    /// The secret, the number of digits or a setting of a token is refused.
    Otp(OtpFault),
}

impl From<OtpFault> for Fault {
    ghost from_gives = { λ fault f. f ≡ Otp fault };

    fn from(fault: OtpFault) -> Fault {
        Fault::Otp(fault)
    }
}

impl Fault {
    /// The number that the call returns.
    pub(crate) fn number(&self) -> u32
        ensures { result ≡ fault_number self.now }
    {
        match self {
            Fault::First(fault) => u32::from(fault.number()),
            Fault::Recorded(fault) => u32::from(fault.number()),
            Fault::Client(fault) => u32::from(fault.number()),
            Fault::Name => 63,
            Fault::Salt => 64,
            Fault::Count => 65,
            Fault::KeyLength => 66,
            Fault::Mechanism => 90,
            Fault::Password => 91,
            Fault::NoncePart => 92,
            Fault::NoRoom => 93,
            Fault::Hash => 94,
            Fault::Moment => 95,
            Fault::Verifier => 96,
            Fault::Spelling => 97,
            Fault::Kind => 98,
            Fault::NoLine => 70,
            Fault::LongLine => 71,
            Fault::Otp(fault) => u32::from(fault.number()),
        }
    }
}
