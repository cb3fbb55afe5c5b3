//! The command `verify`: judges each input line as a one-time code, or as two in a row.
ghost use Rattle.std.specs.Prelude.{◌≡◌, ◌⊎◌, ◌&&◌, Some, IfOk, IfErr, OnOk};
ghost use Rattle.std.specs.Io.KnownBytes.{Appends};
ghost use Rattle.command_io.specs.HeldBook.{held_shown};
ghost use Rattle.commands.specs.Verify.{printed_reply, verify_run_shown, IsLineAnswered, FailsToPrint, CannotBeginToVerify, FailsAtLine};
ghost use Rattle.commands.specs.Verify.{is_passed, MayBePrinted, AnswersAllLines, AnswersFirstLines, VerifiesAllLines, VerifiesFirstLines};

use crate::sent_codes::codes_in;
use account_book::{BookStore, Reply};
use book_file::BookFileExt;
use clap::ArgMatches;
use command_io::held_book::Keeper;
use command_io::input::Lines;
use command_io::output::print_and_flush;
use command_io::prompt::{CODES, ask};
use command_io::terminal::{TerminalInput, TerminalOutput};
use command_io::{held_book, open_book};
use command_line::{Fault, OptionName, value};
use command_words::given;
use sasl_desk::Moment;
use sasl_log::write_reply;
use scram_text::PlainName;
use std::alloc::Global;
use std::fs::Files;
use std::io::{BufRead, Write};
use std::time::Clock;

/// Checks the options in their order, holds and reads the book, answers each input line, and returns whether every code passed. At
/// a terminal it asks for the codes once the book is held.
///
/// Faults, the first that applies (no clause states the order):
/// - BadValue of an option;
/// - CannotRead or CannotWrite if the book can't be held, BadBook if it can't be read;
/// - NoSuchAccount, NoToken;
/// - then, for each line, CannotReadInput, CannotWrite and CannotWriteOutput;
/// - NoMemory at any time.
pub(crate) fn verify<R, I, O, E>(
    rt: &R,
    matches: &ArgMatches<'_>,
    input: &mut I,
    output: &mut O,
    faults: &mut E,
) -> Result<bool, Fault>
where
    R: Files + Clock + AllocGlobal,
    R::File: BookFileExt,
    I: TerminalInput,
    O: Write,
    E: TerminalOutput,
    ensures ok { IfOk result (λ all_passed. VerifiesAllLines R.File.remaining R.File.contents matches.now (I.remaining input.old)
        (O.contents output.old) all_passed (O.contents output.new)) }
    ensures err { IfErr result (λ fault.
        (CannotBeginToVerify R.File.remaining matches.now fault × (O.contents output.new ≡ O.contents output.old))
        ⊎ VerifiesFirstLines R.File.remaining R.File.contents matches.now (I.remaining input.old) (O.contents output.old) fault
        (O.contents output.new)) }
{
    let alloc = rt.alloc();
    let name = value::name(given(matches, OptionName::Name))?;
    let moment = value::moment(OptionName::Moment, given(matches, OptionName::Moment))?;
    let path = given(matches, OptionName::Book);
    let mut held = open_book::open(rt, path, faults)?;
    held_book::check_token(held.book(), &name)?;
    ask(input, faults, CODES);
    answer_lines(alloc, path, &mut held, &name, moment, input, output)
}

// Answers each line, and returns whether every code passed. What a line changes is saved before its reply is printed.
fn answer_lines<S: BookStore, I: BufRead, O: Write>(
    alloc: Global,
    path: &str,
    held: &mut Keeper<S>,
    name: &PlainName,
    moment: Moment,
    input: &mut I,
    output: &mut O,
) -> Result<bool, Fault>
    ensures ok { IfOk result (λ all_passed. AnswersAllLines S.IsStored name.now moment (I.remaining input.old)
        (verify_run_shown S.facts held.old (O.contents output.old)) all_passed
        (verify_run_shown S.facts held.new (O.contents output.new))) }
    ensures err { IfErr result (λ fault. AnswersFirstLines S.IsStored path.now name.now moment (I.remaining input.old)
        (verify_run_shown S.facts held.old (O.contents output.old)) fault (verify_run_shown S.facts held.new (O.contents output.new))) }
{
    let mut lines = Lines::new(input);
    let mut all_passed = true;
    while let Some(line) = lines.next(alloc)? {
        let reply = answer_line(alloc, path, held, name, moment, line.as_slice(), output)?;
        all_passed &= is_pass(reply);
    }
    Ok(all_passed)
}

// Answers one line: judges its code or codes, saves what that changes, and prints the reply.
fn answer_line<S: BookStore, O: Write>(
    alloc: Global,
    path: &str,
    held: &mut Keeper<S>,
    name: &PlainName,
    moment: Moment,
    line: &[u8],
    output: &mut O,
) -> Result<Reply, Fault>
    ensures ok { IfOk result (λ reply. IsLineAnswered S.IsStored name.now moment line.now
        (verify_run_shown S.facts held.old (O.contents output.old)) reply (verify_run_shown S.facts held.new (O.contents output.new))) }
    ensures err { IfErr result (λ fault. FailsAtLine S.IsStored path.now name.now moment line.now
        (verify_run_shown S.facts held.old (O.contents output.old)) fault (verify_run_shown S.facts held.new (O.contents output.new))) }
{
    let reply = held_book::judge(alloc, path, held, name, moment, codes_in(line))?;
    print_reply(alloc, held, moment, reply, output)?;
    Ok(reply)
}

// Whether the reply says that the code, or both codes in a row, passed.
fn is_pass(reply: Reply) -> bool
    ensures { result ≡ is_passed reply }
{
    matches!(reply, Reply::Pass(_))
}

// Prints a reply and flushes the output. It may be called only after `held_book::judge` has returned the reply, and so has saved the
// held book with this attempt in it, unless the reply is LOCKED. Faults: CannotWriteOutput and NoMemory.
fn print_reply<S: BookStore, O: Write>(
    alloc: Global,
    held: &Keeper<S>,
    moment: Moment,
    reply: Reply,
    output: &mut O,
) -> Result<(), Fault>
    requires { MayBePrinted S.IsStored moment reply (held_shown S.facts held.now) }
    ensures printed { OnOk result (Appends (O.contents output.old) (O.contents output.new) (printed_reply moment (Some reply))) }
    ensures err { IfErr result (λ fault. FailsToPrint fault (O.contents output.old) (O.contents output.new)) }
{
    let mut line = Vec::new(alloc);
    write_reply(moment, Some(reply), &mut line).map_err(|_| Fault::NoMemory)?;
    line.extend_from_slice(b"\n")?;
    print_and_flush(line.as_slice(), output)
}
