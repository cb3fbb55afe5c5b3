//! The command `unlock`: sets a token's failures to 0, so that it accepts codes again.
ghost use Rattle.std.specs.Prelude.{OnOk, IfErr};
ghost use Rattle.command_io.specs.Printed.{PrintsNothingUnlessOutputFailed};
ghost use Rattle.account_commands.specs.Unlock.{CannotUnlock, UnlocksAsked};

use book_file::BookFileExt;
use clap::ArgMatches;
use command_io::output::print_done;
use command_io::{held_book, open_book};
use command_line::{Fault, OptionName, value};
use command_words::given;
use std::fs::Files;
use std::io::Write;
use std::time::Clock;

/// Checks the options in their order, holds and reads the book, sets the failures of the account's token to 0, and saves the book,
/// even if they were 0 before. Faults: BadValue, CannotRead or CannotWrite if the book can't be held, BadBook, NoSuchAccount,
/// NoToken and CannotWrite, in this order (no clause says so); also CannotWriteOutput and NoMemory.
pub fn unlock<R, O, E>(
    rt: &R,
    matches: &ArgMatches<'_>,
    output: &mut O,
    faults: &mut E,
) -> Result<(), Fault>
where
    R: Files + Clock + AllocGlobal,
    R::File: BookFileExt,
    O: Write,
    E: Write,
    ensures ok { OnOk result (UnlocksAsked R.File.remaining R.File.contents matches.now (O.contents output.old) (O.contents output.new)) }
    ensures err { IfErr result (λ fault. PrintsNothingUnlessOutputFailed fault (O.contents output.old) (O.contents output.new)) }
    ensures why { IfErr result (CannotUnlock R.File.remaining matches.now) }
{
    let name = value::name(given(matches, OptionName::Name))?;
    let path = given(matches, OptionName::Book);
    let mut held = open_book::open(rt, path, faults)?;
    held_book::unlock(rt.alloc(), path, &mut held, &name)?;
    print_done::<R, O>("unlocked", name.text(), output)
}
