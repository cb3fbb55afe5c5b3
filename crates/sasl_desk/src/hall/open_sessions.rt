//! The open sessions of a hall.
ghost use Rattle.std.specs.Prelude.{◌≡◌, ◌<◌, ◌≤◌, ◌+◌, [], ◌∷◌, ◌++◌, List, length};
ghost use Rattle.std.specs.Prelude.{vec_capacity, vec_len, IfOk, IfSome, IfNone, None, Some};
ghost use Rattle.log_grammar.specs.Versions.{max_open_sessions};
ghost use Rattle.sasl_desk.specs.declared.hall.open_session.OpenSession.{OpenSession};

use crate::hall::open_session::OpenSession;
use crate::session::Session;
use sasl_log::{MAX_OPEN_SESSIONS, NoMemory};
use std::alloc::Global;
use std::marker::Model;

/// Up to 64 open sessions. Their memory is reserved once, so that adding one takes none.
#[derive(Drop)]
pub(crate) struct OpenSessions {
    sessions: Vec<OpenSession>,
}

impl Model for OpenSessions {
    ghost Value = { List OpenSession };

    ghost view = { λ open_sessions. open_sessions.sessions.items };

    ghost invariant = { λ open_sessions. (max_open_sessions ≤ vec_capacity open_sessions.sessions)
        × (vec_len open_sessions.sessions ≤ max_open_sessions) };
}

impl OpenSessions {
    ghost use Rattle.std.specs.List.{find, position};
    ghost use Rattle.std.specs.List.Sorted.{IsPermutation};
    ghost use Rattle.sasl_desk.specs.OpenSessions.{has_number};

    /// No sessions, with room for 64. Errors: 99 NoMemory if memory runs out.
    pub(crate) fn new(alloc: Global) -> Result<OpenSessions, NoMemory>
        ensures { IfOk result (λ open_sessions. open_sessions ≡ []) }
    {
        let mut sessions = Vec::new(alloc);
        match sessions.try_reserve(MAX_OPEN_SESSIONS) {
            Ok(()) => Ok(OpenSessions { sessions }),
            Err(_) => Err(NoMemory),
        }
    }

    /// How many sessions are open.
    pub(crate) fn len(&self) -> usize
        ensures value { result ≡ length self.now }
        ensures few { result ≤ max_open_sessions }
    {
        self.sessions.len()
    }

    // The index of the open session of this number, or None if there is none.
    fn index_of(&self, number: u64) -> Option<usize>
        ensures { result ≡ position (has_number number) self.now }
    {
        self.sessions
            .iter()
            .position(|open_session| open_session.number == number)
    }

    /// The session of this number, or None if none is open.
    pub(crate) fn session(&self, number: u64) -> Option<&Session>
        ensures some { IfSome result (λ session.
            (open_session : OpenSession) × (find (has_number number) self.now ≡ Some open_session) × (session.now ≡ open_session.session)) }
        ensures none { IfNone result (find (has_number number) self.now ≡ None) }
    {
        match self.index_of(number) {
            Some(index) => Some(&self.sessions[index].session),
            None => None,
        }
    }

    /// Removes the open session of this number and returns it, or None if there is none.
    pub(crate) fn remove(&mut self, number: u64) -> Option<OpenSession>
        ensures some { IfSome result (λ open_session.
            IsPermutation self.old (open_session ∷ self.new) × (open_session.number ≡ number) × (length self.new < max_open_sessions)) }
        ensures none { IfNone result ((find (has_number number) self.old ≡ None) × (self.new ≡ self.old)) }
    {
        match self.index_of(number) {
            Some(index) => Some(self.sessions.swap_remove(index)),
            None => None,
        }
    }

    /// Adds an open session. There must be fewer than 64.
    pub(crate) fn add(&mut self, open_session: OpenSession)
        requires { length self.old < max_open_sessions }
        ensures { self.new ≡ self.old ++ open_session ∷ [] }
    {
        let Ok(()) = self.sessions.push(open_session) else {
            unreachable!()
        };
    }
}
