//! A login that was challenged, and the answer to its client-final message.
ghost use Rattle.std.specs.Prelude.{◌≡◌, ℕ, List, [], IfOk, IfErr};
ghost use Rattle.mac_core.specs.Mechanism.{name_of};
ghost use Rattle.scram_ends.specs.Standing.{StandsForChallenged};
ghost use Rattle.log_grammar.specs.Places.{got_final};
ghost use Rattle.log_grammar.specs.Demands.{Accounts};
ghost use Rattle.sasl_desk.specs.ChallengedLogin.{ChallengedLoginFields, challenged_login_of, login_of, IsChallenging};

use crate::session::answer::verdict_answer;
use crate::session::event::Answer;
use mac_core::Mechanism;
use sasl_log::Payload;
use scram_ends::ServerWait;
use scram_text::PlainName;
use std::alloc::{Allocator, Global};
use std::marker::Model;

/// A login that was challenged: the server that waits for its client-final message, its mechanism and the name of its account. The
/// server stands for a login with this mechanism.
#[derive(Drop)]
pub(crate) struct ChallengedLogin {
    server: ServerWait,
    mechanism: Mechanism,
    name: PlainName,
}

impl Model for ChallengedLogin {
    ghost Value = { ChallengedLoginFields };

    ghost view = { λ login. challenged_login_of login.server login.mechanism login.name };

    ghost invariant = { λ login. IsChallenging login.server login.mechanism };
}

impl ChallengedLogin {
    ghost use Rattle.sasl_desk.specs.Sessions.{CanBeWritten};
    ghost use Rattle.sasl_desk.specs.inner.SessionTurns.{lines_of_answer, IsAnswer};

    /// The login of this account, for which the server waits.
    pub(crate) fn new(server: ServerWait, mechanism: Mechanism, name: PlainName) -> ChallengedLogin
        requires { IsChallenging server mechanism }
        ensures { result ≡ challenged_login_of server mechanism name }
    {
        ChallengedLogin {
            server,
            mechanism,
            name,
        }
    }

    /// The answer to the client-final message: an acceptance or a refusal, whose message is put into `message`. An error means that
    /// memory ran out: the login is handed back, and `message` is empty.
    pub(crate) fn final_answer<A: Allocator>(
        self,
        alloc: Global,
        client_final: &Payload<'_>,
        message: &mut Vec<u8, A>,
    ) -> Result<Answer, ChallengedLogin>
        requires { message.old.items ≡ [] }
        ensures due { (accounts : Accounts) (server_nonce client_first server_first : List ℕ)
            → StandsForChallenged self.server (login_of accounts self client_first server_first)
            → IfOk result (λ answer. IsAnswer accounts server_nonce
            (got_final (name_of self.mechanism) self.name client_first server_first client_final.now) answer message.new.items) }
        ensures lines { IfOk result (λ answer. CanBeWritten (lines_of_answer answer message.new.items)) }
        ensures err { IfErr result (λ back. (back ≡ self) × (message.new.items ≡ [])) }
    {
        let Ok(text) = client_final.bytes(alloc) else {
            return Err(self);
        };
        match self.server.finish(text.as_slice(), message) {
            Ok(verdict) => Ok(verdict_answer(verdict, self.name)),
            Err((server, _)) => Err(ChallengedLogin {
                server,
                mechanism: self.mechanism,
                name: self.name,
            }),
        }
    }
}
