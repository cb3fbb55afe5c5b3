//! The command `hall`: judges up to 64 logins at a time, over one book, from the events in its input, and prints the log.
ghost use Rattle.std.specs.Prelude.{ℕ, List, [], IfErr, IsErrOf, OnOk};
ghost use Rattle.account_book.specs.SavedBooks.{HoldsAfterAttempts};
ghost use Rattle.command_io.specs.HeldBook.{held_shown, HoldsItsBook};
ghost use Rattle.commands.specs.Hall.{PrintsHallLog, RunsHall, StopsHall, StopsHearing};
ghost use Rattle.commands.specs.inner.HallSteps.{PrintsToBadEvent};
ghost use Rattle.commands.specs.PrintedLog.{StopsAfter, DoesNotBegin};

mod event;
mod logged_hall;

use account_book::BookStore;
use book_file::BookFileExt;
use clap::ArgMatches;
use command_io::held_book::Keeper;
use command_io::input::Lines;
use command_io::open_book;
use command_io::prompt::{EVENTS, ask};
use command_io::terminal::{TerminalInput, TerminalOutput};
use command_line::{Fault, OptionName};
use command_words::given;
use logged_hall::LoggedHall;
use sasl_log::OverWrite;
use std::alloc::Global;
use std::fs::Files;
use std::io::{BufRead, Write};
use std::time::Clock;

/// Holds and reads the book, and gives a hall over it the event in each input line. Prints the hall's log, of version 2: each
/// event's lines as soon as the hall has heard it. A fault cuts the log short. Returns the output too. At a terminal it asks for
/// the events once the book is held.
///
/// Faults, the first that applies (no clause states the order):
/// - CannotRead or CannotWrite if the book can't be held, BadBook if it can't be read;
/// - CannotWrite if the book can't be saved;
/// - then, for each line, CannotReadInput, BadEvent, CannotWrite and CannotWriteOutput;
/// - NoMemory at any time.
pub(crate) fn hall<R, I, O, E>(
    rt: &R,
    matches: &ArgMatches<'_>,
    input: &mut I,
    output: O,
    faults: &mut E,
) -> (Result<(), Fault>, O)
where
    R: Files + Clock + AllocGlobal,
    R::File: BookFileExt,
    I: TerminalInput,
    O: Write + Drop,
    E: TerminalOutput,
    ensures ok { OnOk result.0 (RunsHall R.File.remaining R.File.contents (I.remaining input.old) []
        (O.contents output) (O.contents result.1)) }
    ensures err { IfErr result.0 (λ fault. StopsHall R.File.remaining R.File.contents matches.now fault (I.remaining input.old)
        (O.contents output) (O.contents result.1)) }
{
    let path = given(matches, OptionName::Book);
    match open_book::open(rt, path, faults) {
        Ok(held) => {
            ask(input, faults, EVENTS);
            let (heard, output, _store) = hear_input(rt.alloc(), path, held, input, output);
            (heard, output)
        }
        Err(fault) => (Err(fault), output),
    }
}

// Gives a hall over a held book the event in each input line, and prints its log. Returns the output and the store too.
fn hear_input<S, I, O>(
    alloc: Global,
    path: &str,
    held: Keeper<S>,
    input: &mut I,
    output: O,
) -> (Result<(), Fault>, O, S)
where
    S: BookStore + Drop,
    I: BufRead,
    O: Write + Drop,
    ensures ok { OnOk result.0 (PrintsHallLog S.IsStored held.book (I.remaining input.old) [] (S.facts result.2) (O.contents output)
        (O.contents result.1)) }
    ensures err { IfErr result.0 (λ fault. StopsAfter fault
        (DoesNotBegin path.now held.book (S.facts held.store) (S.facts result.2) fault) (O.contents output) (O.contents result.1)
        ((last : List (List ℕ)) × PrintsHallLog S.IsStored held.book (I.remaining input.old) last (S.facts result.2)
        (O.contents output) (O.contents result.1))) }
    ensures bad { IsErrOf result.0 Fault.BadEvent
        → PrintsToBadEvent S.IsStored held.book (S.facts result.2) (I.remaining input.old) (O.contents output) (O.contents result.1) }
    ensures why { IfErr result.0 (StopsHearing path.now) }
    // However the run ends, what it leaves is a book to which attempts lead, if the store held a text of the book as it began.
    ensures left { HoldsItsBook (held_shown S.facts held) → HoldsAfterAttempts held.book (S.facts result.2) }
{
    let mut lines = Lines::new(input);
    match LoggedHall::begin(alloc, path, held, OverWrite::new(output)) {
        Ok(mut hall) => {
            let heard = hall.hear_lines(alloc, path, &mut lines);
            let (log, store) = hall.into_log_and_store();
            (heard, log.into_writer(), store)
        }
        Err((log, store, fault)) => (Err(fault), log.into_writer(), store),
    }
}
