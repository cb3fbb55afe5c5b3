//! A server's state in a recorded login, for an audit. A recorded challenge may have extensions, or a longer part of the nonce than
//! `server_first` writes, so it is taken as it is.
ghost use Rattle.std.specs.Prelude.{◌≡◌, ◌↔◌, ℕ, List, IsTrue, IfOk, IfErr};
ghost use Rattle.std.specs.Bool.{OnTrue, OnFalse};
ghost use Rattle.scram_text.specs.Messages.{ClientFirstParts, IsClientFirst, ServerFirstParts, IsServerFirst};
ghost use Rattle.scram_text.specs.Shown.{ShowsServerFirst};
ghost use Rattle.scram_ends.specs.Entry.{entry_of};
ghost use Rattle.scram_ends.specs.Stages.{challenged_login};
ghost use Rattle.scram_ends.specs.Opening.{IsTakenUp, ExtendsNonce, Opening, IsOpening};
ghost use Rattle.scram_ends.specs.First.{IsRecordedFault};
ghost use Rattle.scram_ends.specs.Standing.{StandsForChallenged};
ghost use Rattle.scram_ends.specs.Faults.{recorded_fault_number};
ghost use Rattle.scram_ends.specs.declared.recorded.RecordedFault.TheVariants.{First};

use crate::bytes::are_same;
use crate::first::{FirstFault, take_up};
use crate::kept_keys::KeptKeys;
use crate::keys_view::KeysView;
use crate::server::{ServerWait, wait_for};
use mac_core::Mechanism;
use scram_text::{ServerFirst, read_server_first};
use thiserror::Error;

/// Why two recorded messages do not open a login: the first of these that applies.
#[derive(Clone, Copy, Debug, PartialEq, Eq, Error)]
pub enum RecordedFault {
    /// 20 to 23: the client-first message is refused.
    #[error("{0}")]
    First(FirstFault),

    /// 31: the second text is not a challenge to the client-first message for this entry.
    #[error("the second text is not a challenge for this account and client-first message")]
    NotThisChallenge,
}

impl RecordedFault {
    /// The number of the refusal: 20 to 23 for the client-first message, 31 for the challenge.
    pub fn number(&self) -> u16
        ensures { result ≡ recorded_fault_number self.now }
    {
        match self {
            RecordedFault::First(fault) => fault.number(),
            RecordedFault::NotThisChallenge => 31,
        }
    }
}

impl From<FirstFault> for RecordedFault {
    ghost from_gives = { λ fault f. f ≡ First fault };

    fn from(fault: FirstFault) -> RecordedFault {
        RecordedFault::First(fault)
    }
}

impl ServerWait {
    /// A server after a recorded client-first message and challenge. Errors: those of `first_name` for the client-first message,
    /// else 31 NotThisChallenge if the second text is not a server-first message or asks for a mandatory extension, if its nonce
    /// does not begin with the client's or adds nothing to it, or if its salt or count is not the entry's.
    pub fn recorded(
        mechanism: Mechanism,
        view: &KeysView<'_>,
        client_first: &[u8],
        server_first: &[u8],
    ) -> Result<ServerWait, RecordedFault>
        ensures ok { IfOk result (λ wait. StandsForChallenged wait
            (challenged_login (entry_of view.now) mechanism client_first.now server_first.now)) }
        ensures err { IfErr result (λ fault. IsRecordedFault (entry_of view.now)
            client_first.now server_first.now fault) }
    {
        let mut kept = KeptKeys::none();
        ServerWait::recorded_with(mechanism, view, &mut kept, client_first, server_first)
    }

    /// As `recorded`, with the same result whatever is kept. `kept` then holds the account's keys for this mechanism, and the next call
    /// with them takes less time.
    pub fn recorded_with(
        mechanism: Mechanism,
        view: &KeysView<'_>,
        kept: &mut KeptKeys,
        client_first: &[u8],
        server_first: &[u8],
    ) -> Result<ServerWait, RecordedFault>
        ensures ok { IfOk result (λ wait. StandsForChallenged wait
            (challenged_login (entry_of view.now) mechanism client_first.now server_first.now)) }
        ensures err { IfErr result (λ fault. IsRecordedFault (entry_of view.now)
            client_first.now server_first.now fault) }
    {
        let taken = take_up(client_first)?;
        let Ok(challenge) = read_server_first(server_first) else {
            return Err(RecordedFault::NotThisChallenge);
        };
        if !is_challenge_to(view, taken.nonce, &challenge) {
            return Err(RecordedFault::NotThisChallenge);
        }
        let signing = kept.signing_for(mechanism, view, taken.bare, server_first);
        Ok(wait_for(view, &taken, challenge.nonce, signing))
    }
}

// Whether a challenge that was read answers this client's nonce, with the salt and the count of this entry.
fn is_challenge_to(view: &KeysView<'_>, nonce: &[u8], challenge: &ServerFirst<'_>) -> bool
    ensures opens { OnTrue result ((client_first server_first : List ℕ) (opening : Opening)
        → IsClientFirst client_first opening.first → IsTakenUp opening.first opening.name opening.authzid
        → IsServerFirst server_first opening.challenge
        → nonce.now ≡ opening.first.nonce → ShowsServerFirst challenge.now opening.challenge
        → IsOpening (entry_of view.now) client_first server_first opening) }
    ensures not { OnFalse result ((client_first server_first : List ℕ) (opening : Opening)
        → nonce.now ≡ opening.first.nonce → ShowsServerFirst challenge.now opening.challenge
        → IsOpening (entry_of view.now) client_first server_first opening → ⊥) }
{
    if challenge.mandatory {
        return false;
    }
    extends_nonce(challenge.nonce, nonce)
        && are_same(challenge.salt.bytes(), view.salt.bytes())
        && challenge.count == view.count
}

/// Whether the nonce begins with the client's and is longer than it.
pub(crate) fn extends_nonce(nonce: &[u8], client: &[u8]) -> bool
    ensures { IsTrue result ↔ ExtendsNonce client.now nonce.now }
{
    nonce.len() > client.len() && nonce.starts_with(client)
}
