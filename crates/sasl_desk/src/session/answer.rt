//! Answers that need neither a book nor memory.
ghost use Rattle.std.specs.Prelude.{◌≡◌, ℕ, List, []};
ghost use Rattle.log_grammar.specs.Places.{Place, asks_bare, ending};
ghost use Rattle.log_grammar.specs.Demands.{Accounts};
ghost use Rattle.sasl_desk.specs.Sessions.{CanBeWritten};
ghost use Rattle.sasl_desk.specs.inner.SessionTurns.{lines_of_answer, verdict_answer, IsBareNoDue, IsAnswer};

use crate::session::Session;
use crate::session::event::{Answer, Saying};
use mac_core::Mechanism;
use scram_ends::Verdict;
use scram_text::PlainName;

/// A bare `S NO`, one with an empty message, after which only `E` is due.
pub(crate) fn bare_no() -> Answer
    ensures due { (accounts : Accounts) (server_nonce : List ℕ) (place : Place) → IsBareNoDue place
        → IsAnswer accounts server_nonce place result [] }
    ensures lines { CanBeWritten (lines_of_answer result []) }
{
    Answer {
        says: Saying::Refuses,
        session: None,
    }
}

/// The answer to a client that has gone away: nothing is sent, and only `E` is due.
pub(crate) fn silence() -> Answer
    ensures due { (accounts : Accounts) (server_nonce : List ℕ) → IsAnswer accounts server_nonce ending result [] }
    ensures lines { CanBeWritten (lines_of_answer result []) }
{
    Answer {
        says: Saying::Nothing,
        session: None,
    }
}

/// The answer to a client that asks for the mechanism of this name, without a message: an empty challenge, or a bare `S NO` if it
/// is not offered.
pub(crate) fn answer_to_auth(mechanism_name: &[u8]) -> Answer
    ensures due { (accounts : Accounts) (server_nonce : List ℕ) → IsAnswer accounts server_nonce (asks_bare mechanism_name.now) result [] }
    ensures lines { CanBeWritten (lines_of_answer result []) }
{
    match Mechanism::of_name(mechanism_name) {
        Some(mechanism) => Answer {
            says: Saying::Continues,
            session: Some(Session::WaitFirst(mechanism)),
        },
        None => bare_no(),
    }
}

/// The answer with a verdict on the login of this account.
pub(crate) fn verdict_answer(verdict: Verdict, name: PlainName) -> Answer
    ensures { result ≡ verdict_answer verdict name }
{
    match verdict {
        Verdict::Accepted => Answer {
            says: Saying::Accepts,
            session: Some(Session::WaitCode(name)),
        },
        Verdict::Refused(_) => Answer {
            says: Saying::Refuses,
            session: None,
        },
    }
}
