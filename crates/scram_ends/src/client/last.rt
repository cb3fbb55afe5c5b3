//! The end of a login for the client: whether server-final contains the signature that it expects.
ghost use Rattle.std.specs.Prelude.{IfErr, OnOk, IsOk};
ghost use Rattle.scram_ends.specs.Stages.{Answered};
ghost use Rattle.scram_ends.specs.Login.{IsAuthentic};
ghost use Rattle.scram_ends.specs.Client.{StandsForAnswered, IsNotAuthenticFault};

use crate::bytes::are_same;
use crate::client::{Authenticated, ClientFault, ClientTwo};
use scram_text::{FinalResult, read_server_final};

impl ClientTwo {
    /// Checks that `server_final` shows that the server has the keys of the client's password (RFC 5802, section 5): as
    /// `check_server` with the signature that the client expects.
    pub fn last(self, server_final: &[u8]) -> Result<Authenticated, ClientFault>
        // On Ok, the verifier is the signature that the client expects.
        ensures ok { OnOk result ((l : Answered) (x : StandsForAnswered self l)
            → IsAuthentic server_final.now x.signature) }
        // Each message with this verifier and no mandatory extension gives Ok.
        ensures every { (l : Answered) (x : StandsForAnswered self l)
            → IsAuthentic server_final.now x.signature → IsOk result }
        ensures err { IfErr result (λ fault. (l : Answered) (x : StandsForAnswered self l)
            → IsNotAuthenticFault x.signature server_final.now fault) }
    {
        check_server(server_final, self.expected.as_slice())
    }
}

/// Checks that `server_final` is a server-final message, which may have extensions, and that its verifier is this server signature.
/// Errors: the first of these that applies:
/// - 24 Text: the text is not a server-final message;
/// - 25 Mandatory: it asks for a mandatory extension;
/// - 29 ServerRefused: it is an error;
/// - 30 WrongSignature: it has another verifier.
#[tactic(auto, using(scram_text::proofs::lemmas::FirstUnmet::found_is_first))]
pub fn check_server(server_final: &[u8], signature: &[u8]) -> Result<Authenticated, ClientFault>
    ensures ok { OnOk result (IsAuthentic server_final.now signature.now) }
    ensures every { IsAuthentic server_final.now signature.now → IsOk result }
    ensures err { IfErr result (λ fault. IsNotAuthenticFault signature.now server_final.now fault) }
{
    let parts = read_server_final(server_final)?;
    if parts.mandatory {
        return Err(ClientFault::Mandatory);
    }
    match parts.result {
        FinalResult::ErrorValue(_) => Err(ClientFault::ServerRefused),
        FinalResult::Verifier(verifier) => {
            if are_same(verifier.as_slice(), signature) {
                Ok(Authenticated)
            } else {
                Err(ClientFault::WrongSignature)
            }
        }
    }
}
