//! What follows from a line of the client: one function for each place where it is the client's turn.
ghost use Rattle.std.specs.Prelude.{◌≡◌, true, false, ℕ, List, [], IfOk, IfErr, OnErr};
ghost use Rattle.mac_core.specs.Mechanism.{name_of};
ghost use Rattle.log_grammar.specs.Lines as grammar;
ghost use Rattle.log_grammar.specs.Lines.{bad, gone, abort, from_client, IsLineWritable};
ghost use Rattle.log_grammar.specs.Places.{Place, offered, waits_first, waits_code};
ghost use Rattle.log_grammar.specs.Demands.{Accounts};
ghost use Rattle.sasl_log.specs.Logins.{KeepsEntries};
ghost use Rattle.sasl_log.specs.Shown.{client_shown};
ghost use Rattle.sasl_desk.specs.Events.{ClientEvent};
ghost use Rattle.sasl_desk.specs.DueLines.{is_client_turn, is_line_due, place_after_line};
ghost use Rattle.sasl_desk.specs.Sessions.{IsWaitingAt, IsRecord, BearsMessage, CanBeWritten};
ghost use Rattle.sasl_desk.specs.inner.SessionTurns.{lines_of_answer, turn_lines, heard_lines, IsAnswer};
ghost use Rattle.sasl_desk.specs.inner.SessionTurns.{IsTurnOnEvent, IsTurnOnLine, ComesOfLine, JudgesOnlyWhereCodeIsDue, JudgesOnlyLine};

use crate::session::Session;
use crate::session::answer::{answer_to_auth, bare_no, silence};
use crate::session::challenged_login::ChallengedLogin;
use crate::session::event::{Answer, HearResult, Recorded, Turn};
use crate::session::first::{answer_to_auth_with_message, answer_to_client_first};
use account_book::Book;
use mac_core::Mechanism;
use otp_core::SentCodes;
use sasl_log::ClientLine;
use scram_text::{NoncePart, PlainName};
use std::alloc::{Allocator, Global};

/// The client has gone away: that is recorded, and the session ends.
pub(crate) fn gone_turn<'a>() -> Turn<'a>
    ensures turn { (accounts : Accounts) (server_nonce : List ℕ) (place : Place) (event : ClientEvent) → IsRecord event place gone
        → IsTurnOnEvent accounts server_nonce event place result [] }
    ensures lines { CanBeWritten (turn_lines result []) }
{
    Turn {
        recorded: Recorded::Gone,
        answer: silence(),
    }
}

/// A line that is not due, or a text that is not a line: it is recorded as `C BAD`, and refused.
pub(crate) fn bad_turn<'a>() -> Turn<'a>
    ensures turn { (accounts : Accounts) (server_nonce : List ℕ) (place : Place) (event : ClientEvent) → IsRecord event place bad
        → IsTurnOnEvent accounts server_nonce event place result [] }
    ensures line { (accounts : Accounts) (server_nonce : List ℕ) (place : Place) (line : grammar.ClientLine)
        → is_line_due place line ≡ false
        → IsTurnOnLine accounts server_nonce line place result [] }
    ensures lines { CanBeWritten (turn_lines result []) }
{
    Turn {
        recorded: Recorded::Bad,
        answer: bare_no(),
    }
}

// A line that is due is recorded, and answered like this.
fn answered_line<'a>(line: ClientLine<'a>, answer: Answer) -> Turn<'a>
    requires { IsLineWritable (from_client (client_shown line)) }
    ensures turn { (accounts : Accounts) (server_nonce : List ℕ) (place : Place) (message : List ℕ)
        → is_line_due place (client_shown line.entry) ≡ true
        → IsAnswer accounts server_nonce (place_after_line place (client_shown line.entry)) answer message
        → IsTurnOnLine accounts server_nonce (client_shown line.entry) place result message }
    ensures lines { (message : List ℕ) → CanBeWritten (lines_of_answer answer message) → CanBeWritten (turn_lines result message) }
{
    Turn {
        recorded: Recorded::Line(line),
        answer,
    }
}

// The client gives up: it is sent a bare `S NO`, and the session ends.
fn abort_turn<'a>() -> Turn<'a>
    ensures line { (accounts : Accounts) (server_nonce : List ℕ) (place : Place) → is_client_turn place ≡ true
        → IsTurnOnLine accounts server_nonce abort place result [] }
    ensures lines { CanBeWritten (turn_lines result []) }
{
    Turn {
        recorded: Recorded::Line(ClientLine::Abort),
        answer: bare_no(),
    }
}

/// After the offer of the mechanisms: AUTH or ABORT is due. An error means that memory ran out; the session is handed back.
pub(crate) fn hear_auth<'a, A: Allocator>(
    alloc: Global,
    line: ClientLine<'a>,
    book: &Book,
    server_nonce: &NoncePart,
    message: &mut Vec<u8, A>,
) -> Result<Turn<'a>, Session>
    requires empty { message.old.items ≡ [] }
    requires line { IsLineWritable (from_client (client_shown line)) }
    ensures turn { (accounts : Accounts) → KeepsEntries accounts book.now
        → IfOk result (λ turn. IsTurnOnLine accounts server_nonce.now (client_shown line.entry) offered turn message.new.items) }
    ensures lines { IfOk result (λ turn. CanBeWritten (turn_lines turn message.new.items)) }
    ensures err { IfErr result (λ session. (session ≡ Session.WaitAuth) × (message.new.items ≡ [])) }
    ensures no_memory { OnErr result (BearsMessage (client_shown line.entry)) }
{
    match &line {
        ClientLine::Auth(mechanism_name) => {
            let answer = answer_to_auth(mechanism_name);
            Ok(answered_line(line, answer))
        }
        ClientLine::AuthWith(mechanism_name, client_first) => {
            match answer_to_auth_with_message(
                alloc,
                mechanism_name,
                client_first,
                book,
                server_nonce,
                message,
            ) {
                Ok(answer) => Ok(answered_line(line, answer)),
                Err(_) => Err(Session::WaitAuth),
            }
        }
        ClientLine::Abort => Ok(abort_turn()),
        _ => Ok(bad_turn()),
    }
}

/// After the empty challenge: RESP with the client-first message, or ABORT, is due. Errors as for `hear_auth`.
pub(crate) fn hear_first<'a, A: Allocator>(
    alloc: Global,
    mechanism: Mechanism,
    line: ClientLine<'a>,
    book: &Book,
    server_nonce: &NoncePart,
    message: &mut Vec<u8, A>,
) -> Result<Turn<'a>, Session>
    requires empty { message.old.items ≡ [] }
    requires line { IsLineWritable (from_client (client_shown line)) }
    ensures turn { (accounts : Accounts) → KeepsEntries accounts book.now
        → IfOk result (λ turn. IsTurnOnLine accounts server_nonce.now (client_shown line.entry) (waits_first (name_of mechanism))
        turn message.new.items) }
    ensures lines { IfOk result (λ turn. CanBeWritten (turn_lines turn message.new.items)) }
    ensures err { IfErr result (λ session. (session ≡ Session.WaitFirst mechanism) × (message.new.items ≡ [])) }
    ensures no_memory { OnErr result (BearsMessage (client_shown line.entry)) }
{
    match &line {
        ClientLine::Resp(client_first) => {
            match answer_to_client_first(
                alloc,
                mechanism,
                client_first,
                book,
                server_nonce,
                message,
            ) {
                Ok(answer) => Ok(answered_line(line, answer)),
                Err(_) => Err(Session::WaitFirst(mechanism)),
            }
        }
        ClientLine::Abort => Ok(abort_turn()),
        _ => Ok(bad_turn()),
    }
}

/// After the challenge: RESP with the client-final message, or ABORT, is due. Errors as for `hear_auth`.
pub(crate) fn hear_final<'a, A: Allocator>(
    alloc: Global,
    waiting: ChallengedLogin,
    line: ClientLine<'a>,
    message: &mut Vec<u8, A>,
) -> Result<Turn<'a>, Session>
    requires empty { message.old.items ≡ [] }
    requires line { IsLineWritable (from_client (client_shown line)) }
    ensures turn { (accounts : Accounts) (server_nonce : List ℕ) (place : Place) → IsWaitingAt accounts place waiting
        → IfOk result (λ turn. IsTurnOnLine accounts server_nonce (client_shown line.entry) place turn message.new.items) }
    ensures lines { IfOk result (λ turn. CanBeWritten (turn_lines turn message.new.items)) }
    ensures err { IfErr result (λ session. (session ≡ Session.WaitFinal waiting) × (message.new.items ≡ [])) }
    ensures no_memory { OnErr result (BearsMessage (client_shown line.entry)) }
{
    match &line {
        ClientLine::Resp(client_final) => {
            match waiting.final_answer(alloc, client_final, message) {
                Ok(answer) => Ok(answered_line(line, answer)),
                Err(back) => Err(Session::WaitFinal(back)),
            }
        }
        ClientLine::Abort => Ok(abort_turn()),
        _ => Ok(bad_turn()),
    }
}

/// After an acceptance, or the reply to a code: CODE, SYNC or ABORT is due. A code is only handed on to be judged.
pub(crate) fn hear_code<'a>(name: PlainName, line: ClientLine<'a>) -> HearResult<'a>
    requires { IsLineWritable (from_client (client_shown line)) }
    ensures heard { (accounts : Accounts) (server_nonce : List ℕ)
        → ComesOfLine accounts server_nonce (client_shown line.entry) (waits_code name) result [] }
    ensures waits { JudgesOnlyWhereCodeIsDue result (Session.WaitCode name) }
    ensures sent { JudgesOnlyLine result (client_shown line.entry) }
    ensures lines { CanBeWritten (heard_lines result []) }
{
    match line {
        ClientLine::Code(text) => HearResult::ToJudge(name, SentCodes::One(text)),
        ClientLine::Sync(first, second) => HearResult::ToJudge(name, SentCodes::Two(first, second)),
        ClientLine::Abort => HearResult::Answered(abort_turn()),
        _ => HearResult::Answered(bad_turn()),
    }
}
