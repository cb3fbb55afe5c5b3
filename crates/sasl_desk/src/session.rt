//! The session of one client: what the client is sent, line by line.
//!
//! A session hears what its client does and answers it. It reads the book's accounts and keeps what it needs of the login; it knows
//! nothing of the store or of other sessions, and writes nothing: it says what the log is to record. It hands each code on to be judged.
ghost use Rattle.std.specs.Prelude.{◌≡◌, [], IfOk, IfErr, OnErr};
ghost use Rattle.log_grammar.specs.Lines as grammar;
ghost use Rattle.log_grammar.specs.Lines.{from_client, IsLineWritable};
ghost use Rattle.log_grammar.specs.Places.{Place};
ghost use Rattle.log_grammar.specs.Demands.{Accounts};
ghost use Rattle.sasl_log.specs.Logins.{KeepsEntries};
ghost use Rattle.sasl_log.specs.Shown.{client_shown};
ghost use Rattle.sasl_desk.specs.Events.{event_shown};
ghost use Rattle.sasl_desk.specs.Sessions.{IsSessionAt, IsLineOf, BearsMessage, CanBeWritten};
ghost use Rattle.sasl_desk.specs.inner.SessionTurns.{heard_lines};
ghost use Rattle.sasl_desk.specs.inner.SessionTurns.{ComesOfEvent, ComesOfLine, JudgesOnlyWhereCodeIsDue, JudgesOnlyLine, JudgesOnlyWhatWasSent};

mod answer;
mod challenged_login;
mod event;
mod first;
mod hear;
mod line;
mod phase;

use account_book::Book;
pub(crate) use challenged_login::ChallengedLogin;
pub use event::Event;
pub(crate) use event::{Answer, HearResult, Recorded, Saying, Turn};
use hear::{bad_turn, gone_turn, hear_auth, hear_code, hear_final, hear_first};
use line::client_line;
use mac_core::Mechanism;
pub use phase::Phase;
use sasl_log::ClientLine;
use scram_text::{NoncePart, PlainName};
use std::alloc::{Allocator, Global};

/// An open session: where it stands, with what it keeps of its login.
#[derive(Drop)]
pub(crate) enum Session {
    /// The mechanisms were offered, and the client chooses one.
    WaitAuth,

    /// The client asked for this mechanism, and its client-first message is due.
    WaitFirst(Mechanism),

    /// The client was challenged, and its client-final message is due.
    WaitFinal(ChallengedLogin),

    /// The login to this account was accepted, and the client may send codes.
    WaitCode(PlainName),
}

impl Session {
    /// Hears what the client does, and returns the answer, or a code that is to be judged. `server_nonce` is the server's part of
    /// the nonce, the same for the whole session. The message of the answer is put into `message`, which must be empty before. An
    /// error means that memory ran out, which can happen only on a line with a message. The session is then handed back, `message`
    /// is empty, and nothing was heard.
    pub(crate) fn hear<'a, A: Allocator>(
        self,
        alloc: Global,
        event: Event<'a>,
        book: &Book,
        server_nonce: &NoncePart,
        message: &mut Vec<u8, A>,
    ) -> Result<HearResult<'a>, Session>
        requires { message.old.items ≡ [] }
        // The event is recorded and answered as is due at the place where the session stands.
        ensures heard { (accounts : Accounts) (place : Place) → KeepsEntries accounts book.now → IsSessionAt accounts place self
            → IfOk result (λ heard. ComesOfEvent accounts server_nonce.now (event_shown event.entry) place heard message.new.items) }
        // All its lines can be written.
        ensures lines { IfOk result (λ heard. CanBeWritten (heard_lines heard message.new.items)) }
        // A code is to be judged only if the session waits for one.
        ensures waits { IfOk result (λ heard. JudgesOnlyWhereCodeIsDue heard self) }
        // A code is to be judged only if the client sent it.
        ensures sent { IfOk result (λ heard. JudgesOnlyWhatWasSent heard (event_shown event.entry)) }
        ensures err { IfErr result (λ session. (session ≡ self) × (message.new.items ≡ [])) }
        ensures no_memory { OnErr result ((line : grammar.ClientLine) × IsLineOf (event_shown event.entry) line × BearsMessage line) }
    {
        match event {
            Event::Gone => Ok(HearResult::Answered(gone_turn())),
            Event::Line(text) => match client_line(text) {
                Some(line) => self.hear_line(alloc, line, book, server_nonce, message),
                None => Ok(HearResult::Answered(bad_turn())),
            },
        }
    }

    // Hears a line of the client, at the place where the session stands.
    fn hear_line<'a, A: Allocator>(
        self,
        alloc: Global,
        line: ClientLine<'a>,
        book: &Book,
        server_nonce: &NoncePart,
        message: &mut Vec<u8, A>,
    ) -> Result<HearResult<'a>, Session>
        requires empty { message.old.items ≡ [] }
        requires line { IsLineWritable (from_client (client_shown line)) }
        ensures heard { (accounts : Accounts) (place : Place) → KeepsEntries accounts book.now → IsSessionAt accounts place self
            → IfOk result (λ heard. ComesOfLine accounts server_nonce.now (client_shown line.entry) place heard message.new.items) }
        ensures lines { IfOk result (λ heard. CanBeWritten (heard_lines heard message.new.items)) }
        ensures waits { IfOk result (λ heard. JudgesOnlyWhereCodeIsDue heard self) }
        ensures sent { IfOk result (λ heard. JudgesOnlyLine heard (client_shown line.entry)) }
        ensures err { IfErr result (λ session. (session ≡ self) × (message.new.items ≡ [])) }
        ensures no_memory { OnErr result (BearsMessage (client_shown line.entry)) }
    {
        match self {
            Session::WaitAuth => Ok(HearResult::Answered(hear_auth(
                alloc,
                line,
                book,
                server_nonce,
                message,
            )?)),
            Session::WaitFirst(mechanism) => Ok(HearResult::Answered(hear_first(
                alloc,
                mechanism,
                line,
                book,
                server_nonce,
                message,
            )?)),
            Session::WaitFinal(waiting) => {
                Ok(HearResult::Answered(hear_final(alloc, waiting, line, message)?))
            }
            Session::WaitCode(name) => Ok(hear_code(name, line)),
        }
    }
}
