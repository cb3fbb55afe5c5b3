//! What a desk or a hall waits for, without what its session keeps.
use crate::session::Session;

/// What a desk, or a session of a hall, waits for.
#[derive(Clone, Copy, Debug, PartialEq, Eq)]
pub enum Phase {
    /// The session has ended; at a desk none is open, and the next client can be greeted.
    Closed,

    /// The mechanisms were offered: AUTH is due.
    WaitAuth,

    /// The empty challenge was sent: RESP with the client-first message is due.
    WaitFirst,

    /// The client was challenged: RESP with the client-final message is due.
    WaitFinal,

    /// The login was accepted: the client may send codes.
    WaitCode,

    /// The desk or hall has halted: every `greet` and `client` returns 72 Halted.
    Halted,
}

impl Phase {
    ghost use Rattle.std.specs.Prelude.{◌≡◌};
    ghost use Rattle.sasl_desk.specs.Desks.{session_phase};

    /// The phase of an open session.
    pub(crate) fn from_session(session: &Session) -> Phase
        ensures { result ≡ session_phase session.now }
    {
        match session {
            Session::WaitAuth => Phase::WaitAuth,
            Session::WaitFirst(_) => Phase::WaitFirst,
            Session::WaitFinal(_) => Phase::WaitFinal,
            Session::WaitCode(_) => Phase::WaitCode,
        }
    }
}
