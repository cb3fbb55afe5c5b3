//! Changes of a book that this run holds: each is saved before it is reported, and undone if it can't be saved. Each `path` is that of
//! the book's file as the caller gave it, for faults.
ghost use Rattle.std.specs.Prelude.{◌≡◌, ◌≢◌, true, is_some, None, IfErr, IfOk, MatchOption, OnOk, string_bytes};
ghost use Rattle.otp_core.specs.Attempt.{texts_of};
ghost use Rattle.account_book.specs.Accounts.{account_at};
ghost use Rattle.account_book.specs.SavedBooks.{SavesBook};
ghost use Rattle.account_book.specs.Tokens.{token_at};
ghost use Rattle.command_io.specs.File.{IsFileUnwrittenOrNoMemory};
ghost use Rattle.book_keeper.specs.Keeper.{FailsToSave};
ghost use Rattle.command_io.specs.HeldBook.{held_shown, FailsToChange, IsUnlockSaved, IsTokenFault};
ghost use Rattle.command_io.specs.HeldBook.{IsEnrolled, IsReplySaved, IsReplyUnsaved, IsTokenUnlocked, LacksToken};

use crate::new_account::{NewAccount, Salts};
use account_book::{Book, BookStore, Reply};
pub use book_keeper::Keeper;
use book_keeper::{CodeJudged, SaveFault};
use command_line::Fault;
use otp_core::{Moment, SentCodes};
use scram_text::PlainName;
use std::alloc::Global;

/// Saves the book in `store`, and holds it from then on. Faults, returned with the store: CannotWrite if the store fails, and NoMemory,
/// after which the store is unchanged.
pub fn begin<S: BookStore>(
    alloc: Global,
    path: &str,
    book: Book,
    store: S,
) -> Result<Keeper<S>, (S, Fault)>
    ensures book { IfOk result (λ held. held.book ≡ book) }
    ensures saved { IfOk result (λ held. SavesBook S.IsStored (S.facts store) book (S.facts held.store)) }
    ensures err { IfErr result (λ failed. IsFileUnwrittenOrNoMemory path.now failed.1) }
    ensures unsaved { IfErr result (λ failed. failed.1 ≢ Fault.NoMemory → FailsToSave (S.facts store) book (S.facts failed.0)) }
    ensures unasked { IfErr result (λ failed. failed.1 ≡ Fault.NoMemory → failed.0 ≡ store) }
{
    // The path is copied first, here and below: no memory is then needed once the store has been asked.
    let Ok(file) = String::from_str(alloc, path) else {
        return Err((store, Fault::NoMemory));
    };
    match Keeper::begin(alloc, book, store) {
        Ok(held) => Ok(held),
        Err((_, store, fault)) => Err((store, save_fault(fault, file))),
    }
}

/// Adds an account with the keys of a password for both mechanisms, and saves the book. Faults: NameTaken, CannotWrite and
/// NoMemory. After each of them the book in memory is as before, and after NameTaken or NoMemory the store too.
pub fn enrol<S: BookStore>(
    alloc: Global,
    path: &str,
    held: &mut Keeper<S>,
    account: &NewAccount,
    salts: &Salts,
) -> Result<(), Fault>
    ensures added { OnOk result (IsEnrolled account.now salts.now held.old.book held.new.book) }
    ensures err { IfErr result (λ fault. MatchOption (account_at held.old.book account.now.name)
        (IsFileUnwrittenOrNoMemory path.now fault) (λ account. fault ≡ Fault.NameTaken)) }
    ensures unasked { IfErr result (λ fault. fault ≡ Fault.NoMemory → held.new.store ≡ held.old.store) }
    ensures unsaved { IfErr result (λ fault. FailsToChange (held_shown S.facts held.old) (IsEnrolled account.now salts.now) fault
        (held_shown S.facts held.new)) }
    ensures saved { OnOk result (SavesBook S.IsStored (S.facts held.old.store) held.new.book (S.facts held.new.store)) }
{
    let (name, password, count) = (&account.name, &account.password, account.count);
    if held.book().account(name).is_some() {
        return Err(Fault::NameTaken);
    }
    let file = String::from_str(alloc, path)?;
    match held.enrol(alloc, name, password, &salts.sha1, &salts.sha256, count) {
        Ok(true) => Ok(()),
        Ok(false) => unreachable!(),
        Err(fault) => Err(save_fault(fault, file)),
    }
}

/// Checks that the book has an account of this name, and that it has a token. Faults: NoSuchAccount and NoToken.
pub fn check_token(book: &Book, name: &PlainName) -> Result<(), Fault>
    ensures ok { OnOk result (is_some (token_at book.now name.now) ≡ true) }
    ensures err { IfErr result (LacksToken (account_at book.now name.now)) }
{
    match book.account(name) {
        None => Err(Fault::NoSuchAccount),
        Some(account) if account.token.is_none() => Err(Fault::NoToken),
        Some(_) => Ok(()),
    }
}

/// Judges one code, or two in a row, at `moment` by the account's token, and saves the book unless the token is locked. Faults:
/// NoSuchAccount, NoToken, CannotWrite and NoMemory. After each of them the book in memory is as before, and after all but
/// CannotWrite the store too.
pub fn judge<S: BookStore>(
    alloc: Global,
    path: &str,
    held: &mut Keeper<S>,
    name: &PlainName,
    moment: Moment,
    sent: SentCodes<'_>,
) -> Result<Reply, Fault>
    ensures ok { IfOk result (λ reply. IsReplySaved S.IsStored (held_shown S.facts held.old) name.now moment (texts_of sent.entry)
        reply (held_shown S.facts held.new)) }
    ensures err { IfErr result (IsTokenFault path.now (account_at held.old.book name.now)) }
    ensures unasked { IfErr result (λ fault. fault ≡ Fault.NoMemory → held.new.store ≡ held.old.store) }
    ensures unsaved { IfErr result (λ fault. IsReplyUnsaved (held_shown S.facts held.old) name.now moment (texts_of sent.entry) fault
        (held_shown S.facts held.new)) }
{
    check_token(held.book(), name)?;
    let file = String::from_str(alloc, path)?;
    match held.judge(alloc, name, moment, sent) {
        Ok(CodeJudged::Replied(Some(reply))) => Ok(reply),
        Ok(CodeJudged::Replied(None)) => unreachable!(),
        Ok(CodeJudged::NotSaved) => Err(Fault::CannotWrite(file)),
        Err(_) => Err(Fault::NoMemory),
    }
}

/// Sets the failures of the account's token to 0, and saves the book. Faults: NoSuchAccount, NoToken, CannotWrite and NoMemory.
/// After each of them the book in memory is as before, and after all but CannotWrite the store too.
pub fn unlock<S: BookStore>(
    alloc: Global,
    path: &str,
    held: &mut Keeper<S>,
    name: &PlainName,
) -> Result<(), Fault>
    ensures done { OnOk result (IsUnlockSaved S.IsStored name.now (held_shown S.facts held.old) (held_shown S.facts held.new)) }
    ensures err { IfErr result (IsTokenFault path.now (account_at held.old.book name.now)) }
    ensures unasked { IfErr result (λ fault. fault ≡ Fault.NoMemory → held.new.store ≡ held.old.store) }
    ensures unsaved { IfErr result (λ fault. FailsToChange (held_shown S.facts held.old) (IsTokenUnlocked name.now) fault
        (held_shown S.facts held.new)) }
{
    check_token(held.book(), name)?;
    let file = String::from_str(alloc, path)?;
    match held.unlock(alloc, name) {
        Ok(true) => Ok(()),
        Ok(false) => unreachable!(),
        Err(fault) => Err(save_fault(fault, file)),
    }
}

// The fault of a book that is not saved in this file.
fn save_fault(fault: SaveFault, file: String) -> Fault
    ensures file { IsFileUnwrittenOrNoMemory (string_bytes file) result }
    ensures memory { result ≡ Fault.NoMemory → fault ≡ SaveFault.NoMemory }
    ensures unwritten { result ≢ Fault.NoMemory → fault ≡ SaveFault.NotSaved }
{
    match fault {
        SaveFault::NotSaved => Fault::CannotWrite(file),
        SaveFault::NoMemory => Fault::NoMemory,
    }
}
