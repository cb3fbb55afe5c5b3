//! The command `login`: runs one login and its codes, as server and as client, and prints the server's log.
ghost use Rattle.std.specs.Prelude.{◌≡◌, ◌⊎◌, true, ℕ, Bool, List, [], Option, Ok, decimal, option_map, IfOk, IfErr, IfSome, OnOk};
ghost use Rattle.scram_text.specs.Class.{IsPassword};
ghost use Rattle.account_book.specs.{BookFields};
ghost use Rattle.account_book.specs.SavedBooks.{HoldsAfterAttempts};
ghost use Rattle.command_words.specs.Values.{given_value, value_of};
ghost use Rattle.log_grammar.specs.Versions.{IsClean, IsLogFront};
ghost use Rattle.sasl_desk.specs.{IsMoment};
ghost use Rattle.sasl_desk.specs.Desks.{desk_phase};
ghost use Rattle.sasl_desk.specs.declared.session.phase.Phase.TheVariants as Phase;
ghost use Rattle.command_io.specs.HeldBook.{held_shown, IsReadBook, HoldsItsBook};
ghost use Rattle.command_io.specs.Input.{IsInputUnreadOrNoMemory, TakesLine, HasBadPassword};
ghost use Rattle.commands.specs.declared.login.client_end.Stage.{Stage};
ghost use Rattle.commands.specs.DeskLog.{HasSavedLog, IsGiven};
ghost use Rattle.commands.specs.inner.DeskLogSteps.{IsDeskLog, StaysDeskLog, StaysDeskLogWith, IsLogAfterFault, IsLogAfterFaultWith};
ghost use Rattle.commands.specs.Login.{EndsTalk, PrintsTalk, IsUserAsked, RunsLogin};
ghost use Rattle.commands.specs.LoginFaults.{CannotPrepare, StopsLogin, StopsTalking};
ghost use Rattle.commands.specs.Nonces.{AreNonces};
ghost use Rattle.commands.specs.Talked.{LogSays, talked_shown};
ghost use Rattle.commands.specs.PrintedLog.{StopsAfter, DoesNotBegin};

mod client_end;
mod clock;
mod code_line;
mod nonces;
mod options;
mod socket;
mod talk;

use account_book::BookStore;
use book_file::{BookFileExt, FileStore};
use clap::ArgMatches;
use client_end::ClientEnd;
use clock::{GivenMoment, LoginClock, ReadyClock};
use command_io::held_book::Keeper;
use command_io::input::Lines;
use command_io::open_book;
use command_io::prompt::{LOGIN, ask};
use command_io::terminal::{TerminalInput, TerminalOutput};
use command_line::{Fault, OptionName};
use command_words::given;
use options::read_options;
use sasl_desk::Moment;
use sasl_log::{MAX_LINE_LEN, OverWrite, Sink, Source};
use scram_text::{NoncePart, Password};
use socket::Connection;
use std::alloc::Global;
use std::fs::Files;
use std::io::{BufRead, Write};
use std::marker::Brand;
use std::net::Net;
use std::time::Clock;
use talk::Talk;

// The most bytes of a line of the protocol with its LF. No more are read.
const MAX_LINE_AND_LF_LEN: usize = MAX_LINE_LEN + 1;

// What a login begins with: the book, the client and the lines that it is to send, the server's part of the nonce, and the moment
// of all codes, if one was given.
#[derive(Drop)]
struct LoginSetup<'a, S, I> {
    held: Keeper<S>,

    // The path of the book's file as the caller gave it, for faults. It is here since a call can't pick `G` below if it passes a `&str`.
    path: &'a str,

    client: ClientEnd,
    lines: Lines<'a, I>,
    server_nonce: NoncePart,
    moment: Option<Moment>,

    ghost silent: { client.stage ≡ Stage.Silent },
}

/// Checks the options in their order, reads the password, the book and the random bytes, makes the socket, and lets the client log
/// in and send a code for each further input line. Prints the server's log, each line before it is sent to the client. A fault cuts
/// the log short. Returns whether the client was logged in and each code passed, and the output. At a terminal it asks for the
/// input.
///
/// Faults, the first that applies (no clause states the order):
/// - BadValue of an option;
/// - CannotReadInput or BadPassword for the first line of the input;
/// - CannotRead or CannotWrite if the book can't be held, BadBook if it can't be read;
/// - CannotRead of the random file;
/// - Socket if no pair of sockets can be made;
/// - CannotWrite if the book can't be saved;
/// - then, for each line, CannotReadInput, CannotWrite, CannotWriteOutput and Socket;
/// - NoMemory at any time.
pub(crate) fn login<R, I, O, E>(
    rt: &R,
    matches: &ArgMatches<'_>,
    input: &mut I,
    output: O,
    faults: &mut E,
) -> (Result<bool, Fault>, O)
where
    R: Files + Net + Clock + AllocGlobal,
    R::File: BookFileExt,
    I: TerminalInput,
    O: Write + Drop,
    E: TerminalOutput,
    // The log has a login of the user whom the words describe, with the nonces that they give (one made of random bytes for each that
    // they do not give) and with the password in the input's first line. If it returns true, this login is accepted, and after it are
    // only passes, one for each further line of the input. If it returns false, the login is not accepted, or some line is answered by
    // another reply.
    ensures ok { IfOk result.0 (λ passed. RunsLogin R.File.remaining R.File.contents matches.now (I.remaining input.old)
        (O.contents output) passed (O.contents result.1)) }
    ensures err { IfErr result.0 (λ fault. StopsLogin R.File.remaining R.File.contents matches.now fault (I.remaining input.old)
        (O.contents output) (O.contents result.1)) }
{
    let login = match prepare(rt, matches, input, faults) {
        Ok(login) => login,
        Err(fault) => return (Err(fault), output),
    };
    match socket::open(rt, given(matches, OptionName::Socket)) {
        // In this call the moment of `Brand` is `login.moment`, as `ghosts-talk_over` in proofs/login/login/Invariants.antt says.
        Ok((connection, _file)) => {
            let (passed, output, _store) = talk_over::<Brand, R, _, _, _>(
                rt,
                login,
                &connection,
                output,
            );
            (passed, output)
        }
        Err(fault) => (Err(fault), output),
    }
}

// Checks the options, asks for the input, and reads the password, the book and the random bytes.
fn prepare<'a, R, I, E>(
    rt: &'a R,
    matches: &'a ArgMatches<'_>,
    input: &'a mut I,
    faults: &mut E,
) -> Result<LoginSetup<'a, FileStore<'a, R>, I>, Fault>
where
    R: Files + Clock + AllocGlobal,
    R::File: BookFileExt,
    I: TerminalInput,
    E: TerminalOutput,
    ensures user { IfOk result (λ login. IsUserAsked matches.now login.client.user) }
    ensures nonces { IfOk result (λ login. AreNonces R.File.remaining matches.now login.client.nonce login.server_nonce) }
    ensures moment { IfOk result (λ login. (option_map decimal login.moment ≡ value_of matches.now OptionName.Moment)
        × IfSome login.moment IsMoment) }
    ensures is_password { IfOk result (λ login. IsPassword login.client.password) }
    ensures password { IfOk result (λ login. (has_lf : Bool)
        × TakesLine (I.remaining input.old) login.client.password has_lf (I.remaining login.lines.input.now)) }
    ensures book { IfOk result (λ login. IsReadBook R.File.remaining (⟦<FileStore<'a, R> as BookStore>⟧.facts login.held.store).saved
        login.held.book) }
    ensures path { IfOk result (λ login. login.path.now ≡ given_value matches.now OptionName.Book) }
    ensures err { IfErr result (CannotPrepare R.File.remaining matches.now (I.remaining input.old)) }
{
    let options = read_options(matches)?;
    ask(input, faults, LOGIN);
    let mut lines = Lines::new(input);
    let password = read_password(rt.alloc(), &mut lines)?;
    let path = given(matches, OptionName::Book);
    let held = open_book::open(rt, path, faults)?;
    let random = given(matches, OptionName::Random);
    let nonces = nonces::login_nonces(rt, random, options.client_nonce, options.server_nonce)?;
    Ok(LoginSetup {
        held,
        path,
        client: ClientEnd::new(options.user, password, nonces.client),
        lines,
        server_nonce: nonces.server,
        moment: options.moment,
    })
}

// Reads the first line, which is the password. Faults: BadPassword if it is not a password or there is no line; CannotReadInput; and
// NoMemory.
fn read_password<I: BufRead>(alloc: Global, lines: &mut Lines<'_, I>) -> Result<Password, Fault>
    ensures ok { IfOk result (λ password. (has_lf : Bool)
        × TakesLine (I.remaining lines.old.input.now) password has_lf (I.remaining lines.new.input.now)) }
    ensures is_password { IfOk result IsPassword }
    ensures err { IfErr result (λ fault. IsInputUnreadOrNoMemory fault ⊎ HasBadPassword (I.remaining lines.old.input.now) fault) }
{
    let Some(line) = lines.next(alloc)? else {
        return Err(Fault::BadPassword);
    };
    match Password::new(line.as_slice()) {
        Some(password) => Ok(password),
        None => Err(Fault::BadPassword),
    }
}

// Lets the client of a login talk to a desk over the book, and prints the desk's log. Returns whether the client was logged in and
// each code passed, the output, and the store.
fn talk_over<G, R, S, I, O>(
    rt: &R,
    login: LoginSetup<'_, S, I>,
    connection: &Connection,
    output: O,
) -> (Result<bool, Fault>, O, S)
where
    G: GivenMoment,
    R: Clock + AllocGlobal,
    S: BookStore + Drop,
    I: BufRead,
    O: Write + Drop,
    requires { login.moment ≡ G.moment }
    ensures ok { OnOk result.0
        (HasSavedLog S.IsStored (IsGiven G.moment) IsClean login.entry.held.book login.entry.server_nonce (S.facts result.2)
        (O.contents output) (O.contents result.1)) }
    ensures talk { IfOk result.0 (λ passed. PrintsTalk login.entry.client.user login.entry.client.nonce login.entry.client.password
        (I.remaining login.entry.lines.input.now) (O.contents output) passed (O.contents result.1)) }
    ensures err { IfErr result.0 (λ fault. StopsAfter fault
        (DoesNotBegin login.entry.path.now login.entry.held.book (S.facts login.entry.held.store) (S.facts result.2) fault)
        (O.contents output) (O.contents result.1)
        (HasSavedLog S.IsStored (IsGiven G.moment) IsLogFront login.entry.held.book login.entry.server_nonce (S.facts result.2)
        (O.contents output) (O.contents result.1))) }
    ensures why { IfErr result.0 (StopsTalking login.entry.path.now) }
    // However the run ends, what it leaves is a book to which attempts lead, if the store held a text of the book as it began.
    ensures left { HoldsItsBook (held_shown S.facts login.entry.held) → HoldsAfterAttempts login.entry.held.book (S.facts result.2) }
{
    let LoginSetup {
        held,
        path,
        client,
        mut lines,
        server_nonce,
        moment,
    } = login;
    let alloc = rt.alloc();
    let clock = LoginClock::<R, G>::new(rt, moment);
    match Talk::begin(
        alloc,
        path,
        held,
        connection.ends(),
        OverWrite::new(output),
        clock,
    ) {
        Ok(mut talk) => {
            let passed = converse(
                alloc,
                path,
                &mut talk,
                connection,
                server_nonce,
                client,
                &mut lines,
            );
            let (log, store) = talk.into_log_and_store();
            (passed, log.into_writer(), store)
        }
        Err((log, store, fault)) => (Err(fault), log.into_writer(), store),
    }
}

// Lets the client log in, send its codes and go away. Returns whether it was logged in, and each line was sent and passed; then no
// session is open. Faults: CannotReadInput, CannotWrite, CannotWriteOutput, Socket and NoMemory.
fn converse<S, R, W, L, C, I>(
    alloc: Global,
    path: &str,
    talk: &mut Talk<S, R, W, L, C>,
    connection: &Connection,
    server_nonce: NoncePart,
    client: ClientEnd,
    lines: &mut Lines<'_, I>,
) -> Result<bool, Fault>
where
    S: BookStore + Drop,
    R: Source + Drop,
    W: Sink + Drop,
    L: Sink + Drop,
    C: ReadyClock + Drop,
    I: BufRead,
    requires closed { desk_phase talk.old.desk ≡ Phase.Closed }
    requires silent { client.stage ≡ Stage.Silent }
    ensures talk { IfOk result (λ passed. EndsTalk client.user client.nonce client.password (I.remaining lines.old.input.now)
        (talked_shown R.facts W.facts L.facts talk.old) passed (talked_shown R.facts W.facts L.facts talk.new)) }
    ensures log { OnOk result (StaysDeskLogWith S.facts S.IsStored C.IsNow server_nonce
        talk.old.desk (L.facts talk.old.log) talk.new.desk (L.facts talk.new.log)) }
    ensures closed { OnOk result (desk_phase talk.new.desk ≡ Phase.Closed) }
    ensures clean { OnOk result ((start : BookFields) (before : Option (List ℕ))
        → IsDeskLog S.facts S.IsStored C.IsNow start before server_nonce talk.old.desk (L.facts talk.old.log)
        → HasSavedLog S.IsStored C.IsNow IsClean start server_nonce (S.facts talk.new.desk.keeper.store) before
        (L.facts talk.new.log).given) }
    ensures after_fault { IfErr result (IsLogAfterFaultWith S.facts S.IsStored C.IsNow server_nonce
        talk.old.desk (L.facts talk.old.log) talk.new.desk (L.facts talk.new.log)) }
    ensures err { IfErr result (StopsTalking path.now) }
{
    let passed = talk.log_in_and_send(alloc, path, server_nonce, client, lines)?;
    hang_up(alloc, path, talk, connection)?;
    Ok(passed)
}

// Lets the client go away if its session is still open; the desk sends nothing for that. Faults: those of a turn.
#[tactic(auto, using(crate::proofs::lemmas::LogSays::log_says_nothing))]
fn hang_up<S, R, W, L, C>(
    alloc: Global,
    path: &str,
    talk: &mut Talk<S, R, W, L, C>,
    connection: &Connection,
) -> Result<(), Fault>
where
    S: BookStore + Drop,
    R: Source + Drop,
    W: Sink + Drop,
    L: Sink + Drop,
    C: ReadyClock + Drop,
    ensures client { talk.new.ends.client ≡ talk.old.ends.client }
    ensures silent { OnOk result (LogSays (L.facts talk.old.log).given (L.facts talk.new.log).given []) }
    ensures log { OnOk result (StaysDeskLog S.facts S.IsStored C.IsNow talk.old.desk (L.facts talk.old.log)
        talk.new.desk (L.facts talk.new.log)) }
    ensures closed { OnOk result (desk_phase talk.new.desk ≡ Phase.Closed) }
    ensures after_fault { IfErr result (IsLogAfterFault S.facts S.IsStored C.IsNow talk.old.desk (L.facts talk.old.log)
        talk.new.desk (L.facts talk.new.log)) }
    ensures err { IfErr result (StopsTalking path.now) }
{
    if talk.is_closed() {
        return Ok(());
    }
    connection.hang_up()?;
    let said = talk.turn(alloc, path)?;
    if !talk.is_closed() || !said.is_empty() {
        return Err(Fault::Socket);
    }
    Ok(())
}
