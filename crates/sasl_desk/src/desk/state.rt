//! The state of a desk.
use crate::session::{Phase, Session};
use crate::turn::AfterTurn;
use scram_text::NoncePart;

/// A desk's open session, if it has one, with the server's part of its nonce.
#[derive(Drop)]
pub(crate) enum State {
    /// No session is open.
    Closed,

    /// This session is open.
    Open(Session, NoncePart),

    /// The desk has halted.
    Halted,
}

impl State {
    ghost use Rattle.std.specs.Prelude.{◌≡◌};
    ghost use Rattle.sasl_desk.specs.Desks.{state_phase, state_after};

    /// The state after a turn that left its session like this. `server_nonce` is the server's part of its nonce.
    pub(crate) fn from_turn(after: AfterTurn, server_nonce: NoncePart) -> State
        ensures { result ≡ state_after after server_nonce }
    {
        match after {
            AfterTurn::Going(session) => State::Open(session, server_nonce),
            AfterTurn::Closed => State::Closed,
            AfterTurn::Halted(_) => State::Halted,
        }
    }

    /// The phase of a desk in this state.
    pub(crate) fn phase(&self) -> Phase
        ensures { result ≡ state_phase self.now }
    {
        match self {
            State::Closed => Phase::Closed,
            State::Open(session, _) => Phase::from_session(session),
            State::Halted => Phase::Halted,
        }
    }
}
