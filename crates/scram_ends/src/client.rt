//! The client's end of a login: `Client::start` writes client-first, `ClientOne::first` writes client-final, and `ClientTwo::last`
//! checks that the server has the account's keys. `Client::begin`, `ClientOne::answer` and `check_server` are the same three steps
//! without memory, for a client that keeps nothing between them.
//!
//! A client sends the flag `n` and no extensions. It does not answer a challenge whose iteration count is outside its limits: a
//! small count would make it cheap to try passwords against its proof, and a large one would keep it busy (RFC 5802, section 9, and
//! RFC 7677, section 4).
ghost use Rattle.std.specs.Prelude.{◌≡◌, ◌≤◌, length};
ghost use Rattle.scram_ends.specs.declared.client.ClientFault.TheVariants.{Text};

mod answer;
mod begin;
mod last;
mod start;

use crate::lengths::{MAX_BARE_LEN, MAX_HEADER_LEN};
use arrayvec::ArrayVec;
pub use last::check_server;
use mac_core::{Mechanism, Tag};
use scram_text::{ClientFinalWithoutProof, MAX_NONCE_PART_LEN, TextFault, WriteFault};
use thiserror::Error;

// The least iteration count that a client usually accepts: servers should ask for at least that (RFC 5802, section 5.1).
const USUAL_LEAST: u32 = 4096;

// The greatest iteration count that a client usually accepts. Its keys then take under a second.
const USUAL_MOST: u32 = 1_000_000;

/// The client's end of a login. The type is only there for `Client::start`, which begins a login: no value of it is needed.
#[derive(Clone, Copy, Debug, PartialEq, Eq)]
pub struct Client;

/// The iteration counts that a client accepts.
#[derive(Clone, Copy, Debug, PartialEq, Eq)]
pub struct Limits {
    /// The least count that it accepts, at least 1.
    pub least: u32,

    /// The greatest count that it accepts.
    pub most: u32,
}

impl Limits {
    ghost use Rattle.scram_ends.specs.Client.{AreUsual};

    /// 4096 to 1000000. RFC 5802, section 5.1, asks servers for at least 4096; the greatest is this crate's own choice.
    pub fn usual() -> Limits
        ensures { AreUsual result }
    {
        Limits {
            least: USUAL_LEAST,
            most: USUAL_MOST,
        }
    }
}

/// Why a client ends a login: the first of these that applies.
#[derive(Clone, Copy, Debug, PartialEq, Eq, Error)]
pub enum ClientFault {
    /// 24: the text is not the message that the server has to send; this is its first fault.
    #[error("not a message of the server: {0}")]
    Text(TextFault),

    /// 25: the message begins with `m=` or an extension is named `m`.
    #[error("the server demands an extension that is not supported")]
    Mandatory,

    /// 26: the nonce does not begin with the client's own.
    #[error("the nonce does not begin with the client's own: another login's challenge")]
    NonceNotMine,

    /// 27: the nonce is the client's own: the server added nothing.
    #[error("the nonce has no part from the server")]
    NonceNotLonger,

    /// 28: the iteration count is outside the client's limits.
    #[error("the iteration count is outside the client's limits")]
    CountOutside,

    /// 29: the server refused the login, with a message `e=`.
    #[error("the server refuses the login")]
    ServerRefused,

    /// 30: the signature is not the one made with the server key of the client's password.
    #[error("the signature is wrong: the other end does not have the account's keys")]
    WrongSignature,
}

impl ClientFault {
    ghost use Rattle.scram_ends.specs.Faults.{client_fault_number};

    /// The number of the fault, 24 to 30.
    pub fn number(&self) -> u16
        ensures { result ≡ client_fault_number self.now }
    {
        match self {
            ClientFault::Text(_) => 24,
            ClientFault::Mandatory => 25,
            ClientFault::NonceNotMine => 26,
            ClientFault::NonceNotLonger => 27,
            ClientFault::CountOutside => 28,
            ClientFault::ServerRefused => 29,
            ClientFault::WrongSignature => 30,
        }
    }
}

impl From<TextFault> for ClientFault {
    ghost from_gives = { λ fault f. f ≡ Text fault };

    fn from(fault: TextFault) -> ClientFault {
        ClientFault::Text(fault)
    }
}

/// A client that has sent its first message and waits for the challenge.
///
/// It keeps the message's gs2-header and its bare message, and its contracts say which login it stands for.
#[derive(Drop)]
pub struct ClientOne {
    mechanism: Mechanism,
    limits: Limits,
    // The message without its gs2-header.
    bare: ArrayVec<u8, MAX_BARE_LEN>,
    // The gs2-header.
    header: ArrayVec<u8, MAX_HEADER_LEN>,
    // The client's own nonce.
    nonce: ArrayVec<u8, MAX_NONCE_PART_LEN>,

    ghost has_header: { 1 ≤ length header.items },
}

/// Why a `ClientOne` does not answer a challenge.
#[derive(Drop)]
pub enum OneRefused {
    /// The client has ended the login.
    Spent(ClientFault),

    /// The answer could not be written, and the client is unchanged.
    Back(ClientOne, WriteFault),
}

/// A client's answer to a challenge, not yet written.
#[derive(Drop)]
pub struct ClientAnswer {
    /// The client-final message before its proof.
    pub without_proof: ClientFinalWithoutProof,

    /// The proof.
    pub proof: Tag,

    /// The signature that the client then expects from the server.
    pub expected: Tag,
}

/// A client that has sent its proof and waits for the server's signature.
#[derive(Drop)]
pub struct ClientTwo {
    // The server signature of the login.
    expected: Tag,
}

/// What `ClientTwo::last` returns if the server has shown that it has the keys of the client's password (RFC 5802, section 3). The
/// value by itself proves nothing: anyone can make one.
#[derive(Clone, Copy, Debug, PartialEq, Eq)]
pub struct Authenticated;
