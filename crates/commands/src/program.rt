//! One run of the program, over its words and streams.
ghost use Rattle.std.specs.Prelude.{◌≡◌, ◌≤◌, ◌⊎◌, ℕ, List, map, Ok, Err, IfOk, IfErr, OnOk, MatchResult};
ghost use Rattle.std.specs.Io.KnownBytes.{Appends};
ghost use Rattle.clap.specs.Words.{kind_of, subcommand_rows_of};
ghost use Rattle.command_line.specs.Fault.{status_of};
ghost use Rattle.command_words.specs.Commands.{NamesCommand};
ghost use Rattle.commands.specs.Joined.{joined};
ghost use Rattle.commands.specs.Program.{answer_status, EndsBeforeFlush, EndsCommand, EndsRun, Explains};

use crate::audit::audit;
use crate::hall::hall;
use crate::joined::joined_words;
use crate::login::login;
use crate::report::report as report_log;
use crate::upgrade::upgrade;
use crate::verify::verify;
use account_commands::code::code;
use account_commands::enrol::enrol;
use account_commands::keys::keys;
use account_commands::unlock::unlock;
use book_file::BookFileExt;
use clap::error::ErrorKind;
use clap::{ArgMatches, Error};
use command_io::output::print_and_flush;
use command_io::terminal::{TerminalInput, TerminalOutput};
use command_line::status::{DONE, REFUSED, USAGE};
use command_line::{Fault, TerminalText};
use command_words::{program_commands, usage_text};
use std::alloc::Global;
use std::convert::AsStr;
use std::fs::Files;
use std::io::Write;
use std::net::Net;
use std::time::Clock;

/// Runs the command that `words` name, the program's own name first, and returns the exit status: 0 done, passed or clean; 1
/// refused or at fault; 2 wrong usage, or a value or password that is not in its form; 3 a file, a socket, the input or the output
/// failed, or memory ran out. The answer, help and version go to `output`, which is returned, and everything else to `faults`. Both
/// are flushed. No contract states what goes to `faults`, or that the streams are flushed.
pub fn run<R, S, I, O, E>(rt: &R, words: &[S], input: &mut I, output: O, faults: &mut E) -> (u8, O)
where
    R: Files + Net + Clock + AllocGlobal,
    R::File: BookFileExt,
    S: AsStr,
    I: TerminalInput,
    O: Write + Drop,
    E: TerminalOutput,
    // Follows from `ends`.
    ensures most { result.0 ≤ 3 }
    ensures ends { EndsRun R.File.remaining R.File.contents (joined (map S.text words.now)) result.0 (I.remaining input.old)
        (O.contents output) (O.contents result.1) }
{
    let alloc = rt.alloc();
    match joined_words(alloc, words) {
        Ok(line) => run_line(rt, line.as_slice(), input, output, faults),
        Err(_) => (report(alloc, faults, Fault::NoMemory), output),
    }
}

// As `run`, for words as `clap` reads them.
fn run_line<R, S, I, O, E>(rt: &R, words: &[S], input: &mut I, output: O, faults: &mut E) -> (u8, O)
where
    R: Files + Net + Clock + AllocGlobal,
    R::File: BookFileExt,
    S: AsStr,
    I: TerminalInput,
    O: Write + Drop,
    E: TerminalOutput,
    // Follows from `ends`.
    ensures most { result.0 ≤ 3 }
    ensures ends { EndsRun R.File.remaining R.File.contents (map S.text words.now) result.0 (I.remaining input.old) (O.contents output)
        (O.contents result.1) }
{
    let alloc = rt.alloc();
    let Ok(commands) = program_commands(alloc) else {
        return (report(alloc, faults, Fault::NoMemory), output);
    };
    match commands.try_get_matches_from(words) {
        Ok(matches) => {
            let (ended, output) = dispatch(rt, &matches, input, output, faults);
            match ended {
                Ok(status) => (status, output),
                Err(fault) => (report(alloc, faults, fault), output),
            }
        }
        Err(error) => explain(alloc, words, &error, output, faults),
    }
}

// Handles words that run no command: they are not understood, or ask for help or the version. Returns the status and the output.
fn explain<S, O, E>(
    alloc: Global,
    words: &[S],
    error: &Error,
    mut output: O,
    faults: &mut E,
) -> (u8, O)
where
    S: AsStr,
    O: Write + Drop,
    E: Write,
    ensures { Explains (kind_of error.now) result.0 (O.contents output) (O.contents result.1) }
{
    if error.kind() == ErrorKind::OutOfMemory {
        return (report(alloc, faults, Fault::NoMemory), output);
    }
    if error.use_stderr() {
        return (report_usage(alloc, words, faults), output);
    }
    match print_help(alloc, error, &mut output) {
        Ok(()) => (DONE, output),
        Err(fault) => (report(alloc, faults, fault), output),
    }
}

// Prints the help or the version that `error` holds, and flushes the output. Faults: CannotWriteOutput and NoMemory.
fn print_help<O: Write>(alloc: Global, error: &Error, output: &mut O) -> Result<(), Fault>
    ensures ok { OnOk result ((text : List ℕ) × Appends (O.contents output.old) (O.contents output.new) text) }
    ensures err { IfErr result (λ fault. status_of fault ≡ 3) }
{
    let text = format!(in alloc; "{error}")?;
    print_and_flush(text.as_bytes(), output)
}

// Reports what is wrong with words that are not understood. Returns USAGE, or the status of NoMemory.
fn report_usage<S: AsStr, E: Write>(alloc: Global, words: &[S], faults: &mut E) -> u8
    ensures { (result ≡ 2) ⊎ (result ≡ 3) }
{
    match usage_text(alloc, words) {
        Ok(text) => {
            let _ = faults.write_all(text.as_bytes());
            let _ = faults.flush();
            USAGE
        }
        Err(_) => report(alloc, faults, Fault::NoMemory),
    }
}

// Runs the command that the matches name, and flushes what it printed. Returns the status and the output. The status is that of the
// command's answer: 0, or 1 for a refusal or a fault of a log, or 3 if a log can't be read to its end. Faults: those of the command,
// and CannotWriteOutput.
fn dispatch<R, I: TerminalInput, O: Write + Drop, E: TerminalOutput>(
    rt: &R,
    matches: &ArgMatches<'_>,
    input: &mut I,
    output: O,
    faults: &mut E,
) -> (Result<u8, Fault>, O)
where
    R: Files + Net + Clock + AllocGlobal,
    R::File: BookFileExt,
    requires { NamesCommand (subcommand_rows_of matches.now) }
    ensures most { IfOk result.0 (λ status. status ≤ 3) }
    ensures ends { EndsCommand R.File.remaining R.File.contents (subcommand_rows_of matches.now) result.0 (I.remaining input.old)
        (O.contents output) (O.contents result.1) }
{
    let (ended, mut output) = run_command(rt, matches, input, output, faults);
    match ended {
        Ok(status) => match output.flush() {
            Ok(()) => (Ok(status), output),
            Err(_) => (Err(Fault::CannotWriteOutput), output),
        },
        Err(fault) => (Err(fault), output),
    }
}

// As `dispatch`, without the flush and its fault.
fn run_command<R, I: TerminalInput, O: Write + Drop, E: TerminalOutput>(
    rt: &R,
    matches: &ArgMatches<'_>,
    input: &mut I,
    mut output: O,
    faults: &mut E,
) -> (Result<u8, Fault>, O)
where
    R: Files + Net + Clock + AllocGlobal,
    R::File: BookFileExt,
    requires { NamesCommand (subcommand_rows_of matches.now) }
    ensures most { IfOk result.0 (λ status. status ≤ 3) }
    ensures ends { EndsBeforeFlush R.File.remaining R.File.contents (subcommand_rows_of matches.now) result.0 (I.remaining input.old)
        (O.contents output) (O.contents result.1) }
{
    let alloc = rt.alloc();
    match matches.subcommand() {
        Some(("keys", inner)) => (done(keys(alloc, inner, input, &mut output, faults)), output),
        Some(("enrol", inner)) => (done(enrol(rt, inner, input, &mut output, faults)), output),
        Some(("code", inner)) => (done(code(alloc, inner, &mut output)), output),
        Some(("verify", inner)) => (
            answered(verify(rt, inner, input, &mut output, faults)),
            output,
        ),
        Some(("unlock", inner)) => (done(unlock(rt, inner, &mut output, faults)), output),
        Some(("login", inner)) => {
            let (passed, output) = login(rt, inner, input, output, faults);
            (answered(passed), output)
        }
        Some(("hall", inner)) => {
            let (ended, output) = hall(rt, inner, input, output, faults);
            (done(ended), output)
        }
        Some(("audit", inner)) => (audit(rt, inner, &mut output, faults), output),
        Some(("report", inner)) => report_log(rt, inner, output),
        Some(("upgrade", inner)) => (upgrade(rt, inner, &mut output, faults), output),
        _ => unreachable!(),
    }
}

// The status of a command whose only answer is what it printed.
fn done(ended: Result<(), Fault>) -> Result<u8, Fault>
    ensures { MatchResult ended (λ _. result ≡ Ok 0) (λ fault. result ≡ Err fault) }
{
    ended?;
    Ok(DONE)
}

// The status of a command that returns whether each code passed and, for `login`, the login was accepted.
fn answered(passed: Result<bool, Fault>) -> Result<u8, Fault>
    ensures { MatchResult passed (λ yes. result ≡ Ok (answer_status yes)) (λ fault. result ≡ Err fault) }
{
    if passed? { Ok(DONE) } else { Ok(REFUSED) }
}

// Prints a fault and returns its status.
fn report<E: Write>(alloc: Global, faults: &mut E, fault: Fault) -> u8
    ensures { result ≡ status_of fault }
{
    let _ = match format!(in alloc; "{fault}") {
        Ok(text) => writeln!(faults, "scramotp: {}", TerminalText(text.as_str())),
        Err(_) => writeln!(faults, "scramotp: {}", Fault::NoMemory),
    };
    let _ = faults.flush();
    fault.status()
}
