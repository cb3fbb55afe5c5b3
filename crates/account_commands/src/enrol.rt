//! The command `enrol`: adds an account with a password to a book.
ghost use Rattle.std.specs.Prelude.{◌≡◌, ◌⊎◌, IfOk, IfErr, IfSome, OnOk, string_bytes};
ghost use Rattle.std.specs.Fmt.{decimal};
ghost use Rattle.scram_text.specs.Class.{IsPassword, IsPlainName};
ghost use Rattle.scram_text.specs.Parts.{IsCount};
ghost use Rattle.account_book.specs.{IsBookText};
ghost use Rattle.command_words.specs.Values.{given_value};
ghost use Rattle.command_io.specs.File.{IsFileUnreadOrNoMemory};
ghost use Rattle.command_io.specs.HeldBook.{IsReadBook};
ghost use Rattle.command_io.specs.Input.{IsFirstLine};
ghost use Rattle.command_io.specs.Printed.{PrintsNothingUnlessOutputFailed};
ghost use Rattle.account_commands.specs.Enrol.{CannotBeChanged, CannotEnrol, DescribesNoAccount, EnrolsAsked, IsNameTaken};
ghost use Rattle.account_commands.specs.Enrol.{IsReadOrMade, IsThisOrReadBook, SavesAccount, TakesSalts};

use account_book::{Book, SALT_LEN};
use book_file::{BookFile, BookFileExt, FileStore};
use clap::ArgMatches;
use command_io::file::open_file;
use command_io::new_account::{NewAccount, Salts};
use command_io::open_book::ReadBook;
use command_io::output::print_done;
use command_io::prompt::{PASSWORD, ask};
use command_io::random::random_bytes;
use command_io::terminal::{TerminalInput, TerminalOutput};
use command_io::{held_book, input, open_book};
use command_line::{Fault, OptionName, value};
use command_words::given;
use scram_text::{Password, Salt};
use std::alloc::Global;
use std::fs::Files;
use std::io::{Read, Write};
use std::time::Clock;

// The iteration count of a new book's decoys, which is also the default of `--count`.
const DECOY_COUNT: u32 = 4096;

/// Checks the options in their order, reads the password, the book and the random bytes, and adds the account. If there is no file,
/// it makes a new book. The keys are made while other runs may use the book; if one has changed it by then, they are made again. At
/// a terminal it asks for the password. Faults, in this order (no clause says so): BadValue; CannotReadInput and BadPassword;
/// CannotRead or CannotWrite if the book can't be held, and BadBook; CannotRead of the random file; NameTaken; the same of the
/// book as it is held once more; CannotWrite if it can't be saved; CannotWriteOutput. NoMemory may come at any time.
pub fn enrol<R, I, O, E>(
    rt: &R,
    matches: &ArgMatches<'_>,
    input: &mut I,
    output: &mut O,
    faults: &mut E,
) -> Result<(), Fault>
where
    R: Files + Clock + AllocGlobal,
    R::File: BookFileExt,
    I: TerminalInput,
    O: Write,
    E: TerminalOutput,
    ensures ok { OnOk result (EnrolsAsked R.File.remaining R.File.contents matches.now (I.remaining input.old) (O.contents output.old)
        (O.contents output.new)) }
    ensures err { IfErr result (λ fault. PrintsNothingUnlessOutputFailed fault (O.contents output.old) (O.contents output.new)) }
    ensures why { IfErr result (CannotEnrol R.File.remaining matches.now (I.remaining input.old)) }
{
    let account = read_account(rt.alloc(), matches, input, faults)?;
    let path = given(matches, OptionName::Book);
    let read = open_book::read_and_release(rt, path, faults)?;
    let random_path = given(matches, OptionName::Random);
    let mut random = open_file(rt, random_path)?;
    let (book, text) = read_or_new(rt.alloc(), random_path, read, &mut random)?;
    let salts = two_salts(rt.alloc(), random_path, &mut random)?;
    add_and_save(rt, path, book, text, &account, &salts, faults)?;
    print_done::<R, O>("enrolled", account.name.text(), output)
}

// Checks the options that describe the account, and reads the password.
fn read_account<I: TerminalInput, E: TerminalOutput>(
    alloc: Global,
    matches: &ArgMatches<'_>,
    input: &mut I,
    faults: &mut E,
) -> Result<NewAccount, Fault>
    ensures name { IfOk result (λ account. (account.name ≡ given_value matches.now OptionName.Name) × IsPlainName account.name) }
    ensures count { IfOk result (λ account. (given_value matches.now OptionName.Count ≡ decimal account.count) × IsCount account.count) }
    ensures password { IfOk result (λ account. IsFirstLine (I.remaining input.old) account.password × IsPassword account.password) }
    ensures err { IfErr result (DescribesNoAccount matches.now (I.remaining input.old)) }
{
    let name = value::name(given(matches, OptionName::Name))?;
    let count = value::count(given(matches, OptionName::Count))?;
    ask(input, faults, PASSWORD);
    let line = input::first_line(alloc, input)?;
    match Password::new(line.as_slice()) {
        Some(password) => Ok(NewAccount {
            name,
            password,
            count,
        }),
        None => Err(Fault::BadPassword),
    }
}

// The book that was read and its text; or, if there was no file, a new book, whose decoy key is the next random bytes.
fn read_or_new<F: Read>(
    alloc: Global,
    random_path: &str,
    read: Option<ReadBook>,
    random: &mut F,
) -> Result<(Book, Option<String>), Fault>
    requires { IfSome read (λ read. IsReadBook F.remaining (string_bytes read.text) read.book) }
    ensures book { IfOk result (λ found. IsReadOrMade F.remaining (F.remaining random.old) (F.remaining random.new) found.0) }
    ensures text { IfOk result (λ found. IfSome found.1 (λ text. IsBookText (string_bytes text) found.0)) }
    ensures err { IfErr result (IsFileUnreadOrNoMemory random_path.now) }
{
    match read {
        Some(read) => Ok((read.book, Some(read.text))),
        None => {
            let key = random_bytes(alloc, random_path, random)?;
            Ok((Book::new(alloc, key, DECOY_COUNT), None))
        }
    }
}

// Two salts of random bytes, for SCRAM-SHA-1 and for SCRAM-SHA-256.
fn two_salts<F: Read>(alloc: Global, random_path: &str, random: &mut F) -> Result<Salts, Fault>
    ensures salts { IfOk result (λ salts. TakesSalts (F.remaining random.old) salts (F.remaining random.new)) }
    ensures err { IfErr result (IsFileUnreadOrNoMemory random_path.now) }
{
    let sha1 = salt(random_bytes(alloc, random_path, random)?);
    let sha256 = salt(random_bytes(alloc, random_path, random)?);
    Ok(Salts { sha1, sha256 })
}

// The salt of these bytes.
fn salt(bytes: [u8; SALT_LEN]) -> Salt
    ensures { result ≡ bytes }
{
    let Some(salt) = Salt::new(&bytes) else {
        unreachable!()
    };
    salt
}

// Adds the account to the book. `text` is the text that its file had, or None if there was no file. Then holds the file and saves
// the book; if the file has another text by then, adds the account to that book instead, and makes its keys again.
fn add_and_save<R, E>(
    rt: &R,
    path: &str,
    mut book: Book,
    text: Option<String>,
    account: &NewAccount,
    salts: &Salts,
    faults: &mut E,
) -> Result<(), Fault>
where
    R: Files + Clock + AllocGlobal,
    R::File: BookFileExt,
    E: Write,
    requires { IfSome text (λ text. IsBookText (string_bytes text) book) }
    ensures saved { OnOk result (SavesAccount R.File.remaining R.File.contents book account.now salts.now) }
    ensures err { IfErr result (λ fault. IsNameTaken (IsThisOrReadBook R.File.remaining book) account.now.name fault
        ⊎ CannotBeChanged R.File.remaining path.now fault) }
{
    let alloc = rt.alloc();
    account.add_to(alloc, &mut book, salts)?;
    let held = match text {
        Some(_) => BookFile::hold(rt, path),
        None => BookFile::hold_or_make(rt, path),
    };
    let mut file = match held {
        Ok(file) => file,
        Err(fault) => return Err(open_book::hold_fault(alloc, path, fault, faults)),
    };
    let found = open_book::text_of(alloc, &mut file, path)?;
    match found {
        Some(found) if text.as_ref() != Some(&found) => {
            let mut held = open_book::parse_held(alloc, file, found)?;
            held_book::enrol(alloc, path, &mut held, account, salts)
        }
        _ => {
            let store = FileStore::new(file, text.unwrap_or(String::new(alloc)));
            match held_book::begin(alloc, path, book, store) {
                Ok(_) => Ok(()),
                Err((_, fault)) => Err(fault),
            }
        }
    }
}
