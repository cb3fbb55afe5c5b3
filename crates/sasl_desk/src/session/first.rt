//! The answer to a client-first message: a challenge to the account that it names, or a bare `S NO`.
ghost use Rattle.std.specs.Prelude.{◌≡◌, ℕ, List, [], IfOk, OnErr};
ghost use Rattle.std.specs.declared.option.Option.{Option};
ghost use Rattle.scram_text.specs.Messages.{ClientFirstParts, IsClientFirst};
ghost use Rattle.scram_ends.specs.Opening.{IsTakenUp};
ghost use Rattle.log_grammar.specs.Places.{got_first};
ghost use Rattle.log_grammar.specs.Demands.{Accounts, NamesMechanism};
ghost use Rattle.sasl_log.specs.Logins.{KeepsEntries};
ghost use Rattle.sasl_desk.specs.Sessions.{CanBeWritten};
ghost use Rattle.sasl_desk.specs.inner.SessionTurns.{lines_of_answer, IsAnswer};

use crate::session::Session;
use crate::session::answer::bare_no;
use crate::session::challenged_login::ChallengedLogin;
use crate::session::event::{Answer, Saying};
use account_book::Book;
use mac_core::Mechanism;
use sasl_log::{NoMemory, Payload};
use scram_ends::{FirstRefused, first_name, server_first};
use scram_text::{NoncePart, PlainName, WriteFault};
use std::alloc::{Allocator, Global};

/// The answer to a client that asks for the mechanism of this name with a client-first message: a challenge, whose message is put
/// into `message`; or a bare `S NO`, if the mechanism is not offered or the client-first message is refused. Errors: 99 NoMemory if
/// memory runs out; `message` is then empty.
pub(crate) fn answer_to_auth_with_message<A: Allocator>(
    alloc: Global,
    mechanism_name: &[u8],
    client_first: &Payload<'_>,
    book: &Book,
    server_nonce: &NoncePart,
    message: &mut Vec<u8, A>,
) -> Result<Answer, NoMemory>
    requires { message.old.items ≡ [] }
    ensures due { (accounts : Accounts) → KeepsEntries accounts book.now
        → IfOk result (λ answer.
        IsAnswer accounts server_nonce.now (got_first mechanism_name.now client_first.now) answer message.new.items) }
    ensures lines { IfOk result (λ answer. CanBeWritten (lines_of_answer answer message.new.items)) }
    ensures err { OnErr result (message.new.items ≡ []) }
{
    match Mechanism::of_name(mechanism_name) {
        Some(mechanism) => answer_to_client_first(
            alloc,
            mechanism,
            client_first,
            book,
            server_nonce,
            message,
        ),
        None => Ok(bare_no()),
    }
}

/// The answer to a client-first message by this mechanism, which is offered, as for `answer_to_auth_with_message`.
pub(crate) fn answer_to_client_first<A: Allocator>(
    alloc: Global,
    mechanism: Mechanism,
    client_first: &Payload<'_>,
    book: &Book,
    server_nonce: &NoncePart,
    message: &mut Vec<u8, A>,
) -> Result<Answer, NoMemory>
    requires { message.old.items ≡ [] }
    ensures due { (accounts : Accounts) (mechanism_name : List ℕ) → KeepsEntries accounts book.now
        → NamesMechanism mechanism_name mechanism
        → IfOk result (λ answer. IsAnswer accounts server_nonce.now (got_first mechanism_name client_first.now) answer message.new.items) }
    ensures lines { IfOk result (λ answer. CanBeWritten (lines_of_answer answer message.new.items)) }
    ensures err { OnErr result (message.new.items ≡ []) }
{
    let bytes = client_first.bytes(alloc)?;
    let text = bytes.as_slice();
    match first_name(text) {
        Ok(name) => challenge(mechanism, name, text, book, server_nonce, message),
        Err(_) => Ok(bare_no()),
    }
}

// Challenges the login that the message begins for this account.
fn challenge<A: Allocator>(
    mechanism: Mechanism,
    name: PlainName,
    client_first: &[u8],
    book: &Book,
    server_nonce: &NoncePart,
    message: &mut Vec<u8, A>,
) -> Result<Answer, NoMemory>
    requires empty { message.old.items ≡ [] }
    requires taken { (first : ClientFirstParts) × (authzid : Option (List ℕ)) × IsClientFirst client_first.now first
        × IsTakenUp first name authzid }
    ensures due { (accounts : Accounts) (mechanism_name : List ℕ) → KeepsEntries accounts book.now
        → NamesMechanism mechanism_name mechanism
        → IfOk result (λ answer. IsAnswer accounts server_nonce.now (got_first mechanism_name client_first.now) answer message.new.items) }
    ensures lines { IfOk result (λ answer. CanBeWritten (lines_of_answer answer message.new.items)) }
    ensures err { OnErr result (message.new.items ≡ []) }
{
    let view = book.view(&name, mechanism);
    match server_first(mechanism, &view, client_first, server_nonce, message) {
        Ok(wait) => Ok(Answer {
            says: Saying::Continues,
            session: Some(Session::WaitFinal(ChallengedLogin::new(wait, mechanism, name))),
        }),
        Err(FirstRefused::First(_)) => Ok(bare_no()),
        Err(FirstRefused::Write(WriteFault::NoMemory)) => Err(NoMemory),
        Err(FirstRefused::Write(_)) => unreachable!(),
    }
}
