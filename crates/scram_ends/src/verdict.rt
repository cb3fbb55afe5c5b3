//! A server's verdict on a client-final message.
ghost use Rattle.std.specs.Prelude.{◌≡◌};
ghost use Rattle.scram_ends.specs.Verdict.{error_value, due_of, verdict_of};

use mac_core::Tag;

/// Why a login is refused: the first of these that applies.
#[derive(Clone, Copy, Debug, PartialEq, Eq)]
pub enum Refusal {
    /// The text is not a client-final message.
    InvalidEncoding,

    /// An extension is named `m`.
    ExtensionsNotSupported,

    /// The nonce is not exactly the one that was sent.
    OtherNonce,

    /// The channel field is not exactly the gs2-header of client-first.
    Channel,

    /// The proof is not made with the entry's keys, or the entry is a decoy.
    InvalidProof,

    /// The account may not act as the name to act as.
    NotAuthorised,
}

impl Refusal {
    /// The value of `e=` that reports the refusal (RFC 5802, section 7).
    pub fn error_value(&self) -> &'static str
        ensures { result.now ≡ error_value self.now }
    {
        match self {
            Refusal::InvalidEncoding => "invalid-encoding",
            Refusal::ExtensionsNotSupported => "extensions-not-supported",
            Refusal::OtherNonce | Refusal::NotAuthorised => "other-error",
            Refusal::Channel => "channel-bindings-dont-match",
            Refusal::InvalidProof => "invalid-proof",
        }
    }
}

/// A server's verdict, without its signature.
#[derive(Clone, Copy, Debug, PartialEq, Eq)]
pub enum Verdict {
    /// The login is valid.
    Accepted,

    /// The login is refused.
    Refused(Refusal),
}

/// A server's verdict, with its signature if it accepts.
#[derive(Drop)]
pub enum Judged {
    /// The login is valid, and this is the server's signature.
    Accepted(Tag),

    /// The login is refused.
    Refused(Refusal),
}

impl Judged {
    /// The verdict without the signature.
    pub(crate) fn verdict(&self) -> Verdict
        ensures { result ≡ verdict_of (due_of self.now) }
    {
        match self {
            Judged::Accepted(_) => Verdict::Accepted,
            Judged::Refused(refusal) => Verdict::Refused(*refusal),
        }
    }
}
