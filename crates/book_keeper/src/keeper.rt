//! The keeper of a book: it saves each change before it reports it.
ghost use Rattle.std.specs.Prelude.{◌≡◌, ◌≤◌, true, not, is_some, Some, IfErr, IfOk, OnErr, OnOk};
ghost use Rattle.otp_core.specs.Attempt.{texts_of};
ghost use Rattle.account_book.specs.Accounts.{account_at, IsAdded, IsChanged};
ghost use Rattle.account_book.specs.Enrolled.{enrolled};
ghost use Rattle.account_book.specs.SavedBooks.{SavesBook};
ghost use Rattle.account_book.specs.Tokens.{token_at, with_token, IsUnlocked};
ghost use Rattle.book_keeper.specs.Keeper.{IsChangeUnsaved, IsCodeJudged, IsSavedIfDue, IsToBeSaved, IsUnsaved};

use account_book::{Book, BookStore, EnrolFault};
use otp_core::{Moment, Reply, SentCodes, Token, law_of_moments};
use scram_text::{Password, PlainName, Salt};
use std::alloc::{AllocError, Global};
use thiserror::Error;

/// A book, and the store that holds its text.
#[derive(Drop)]
pub struct Keeper<S> {
    book: Book,
    store: S,
}

/// Why a book is not saved.
#[derive(Clone, Copy, Debug, PartialEq, Eq, Error)]
pub enum SaveFault {
    /// The store failed, in this save or in an earlier one.
    #[error("the book could not be saved")]
    NotSaved,

    /// Memory ran out. The store was not asked.
    #[error("out of memory")]
    NoMemory,
}

/// The result of judging a code, or two in a row.
#[derive(Clone, Copy, Debug, PartialEq, Eq)]
pub enum CodeJudged {
    /// The reply, or None if the account has no token. What it changed is saved.
    Replied(Option<Reply>),

    /// The save failed: the reply must not be sent, and the book is as before.
    NotSaved,
}

impl<S: BookStore> Keeper<S> {
    /// A keeper of this book, whose text the store then holds. Errors: NoMemory and NotSaved, as in `save`. The book and the store
    /// are then handed back.
    pub fn begin(alloc: Global, book: Book, store: S) -> Result<Keeper<S>, (Book, S, SaveFault)>
        ensures ok { IfOk result (λ keeper. (keeper.book ≡ book) × SavesBook S.IsStored (S.facts store) book (S.facts keeper.store)) }
        ensures err { IfErr result (λ refused. (refused.0 ≡ book) × IsUnsaved (S.facts store) book refused.2 (S.facts refused.1)) }
        ensures unasked { IfErr result (λ refused. refused.2 ≡ SaveFault.NoMemory → refused.1 ≡ store) }
    {
        let mut keeper = Keeper { book, store };
        match keeper.save(alloc) {
            Ok(()) => Ok(keeper),
            Err(fault) => Err((keeper.book, keeper.store, fault)),
        }
    }

    /// A keeper of this book. Nothing is saved yet: the store should hold the book's text (no contract says so).
    pub fn resume(book: Book, store: S) -> Keeper<S>
        ensures book { result.book ≡ book }
        ensures store { result.store ≡ store }
    {
        Keeper { book, store }
    }

    /// The book as it is now.
    pub fn book(&self) -> &Book
        ensures { result.now ≡ self.now.book }
    {
        &self.book
    }

    /// The book as it is now, and its store.
    pub fn close(self) -> (Book, S)
        ensures book { result.0 ≡ self.book }
        ensures store { result.1 ≡ self.store }
    {
        (self.book, self.store)
    }

    /// Saves the book's text. Errors: NotSaved if the store fails, and then holds the old text or the book's, or if it had failed
    /// before; NoMemory if memory runs out, which is before the store is used.
    pub fn save(&mut self, alloc: Global) -> Result<(), SaveFault>
        ensures book { self.new.book ≡ self.old.book }
        ensures ok { OnOk result (SavesBook S.IsStored (S.facts self.old.store) self.old.book (S.facts self.new.store)) }
        ensures err { IfErr result (λ fault. IsUnsaved (S.facts self.old.store) self.old.book fault (S.facts self.new.store)) }
        ensures unasked { IfErr result (λ fault. fault ≡ SaveFault.NoMemory → self.new.store ≡ self.old.store) }
    {
        let Ok(text) = self.book.write(alloc) else {
            return Err(SaveFault::NoMemory);
        };
        match self.store.save(text) {
            Ok(()) => Ok(()),
            Err(_) => Err(SaveFault::NotSaved),
        }
    }

    /// Adds an account as `Book::enrol` does, and saves the book. Returns whether the name was free; if it was taken, nothing
    /// changes and the store is not used. Errors: NoMemory and NotSaved, as in `save`; the book is then as before.
    pub fn enrol(
        &mut self,
        alloc: Global,
        name: &PlainName,
        password: &Password,
        sha1_salt: &Salt,
        sha256_salt: &Salt,
        count: u32,
    ) -> Result<bool, SaveFault>
        requires { 1 ≤ count }
        ensures found { IfOk result (λ free. free ≡ not (is_some (account_at self.old.book name.now))) }
        ensures added { IfOk result (λ free. free ≡ true
            → IsAdded self.old.book name.now (enrolled password.now sha1_salt.now sha256_salt.now count) self.new.book) }
        ensures ok { IfOk result (λ free. IsSavedIfDue S.IsStored free self.old.book (S.facts self.old.store) self.new.book
            (S.facts self.new.store)) }
        ensures undone { OnErr result (self.new.book ≡ self.old.book) }
        ensures err { IfErr result (λ fault. IsChangeUnsaved
            (λ old. IsAdded old name.now (enrolled password.now sha1_salt.now sha256_salt.now count)) self.old.book
            (S.facts self.old.store) fault
            (S.facts self.new.store)) }
        ensures unasked { IfErr result (λ fault. fault ≡ SaveFault.NoMemory → self.new.store ≡ self.old.store) }
    {
        match self
            .book
            .enrol(alloc, name, password, sha1_salt, sha256_salt, count)
        {
            Ok(()) => {}
            Err(EnrolFault::NameTaken) => return Ok(false),
            Err(EnrolFault::NoMemory) => return Err(SaveFault::NoMemory),
        }
        match self.save(alloc) {
            Ok(()) => Ok(true),
            Err(fault) => {
                self.book.remove(name);
                Err(fault)
            }
        }
    }

    /// Sets the failures of the token of the account of this name to 0, and saves the book, even if they were 0 before. Returns
    /// whether there is such an account and it has a token; if not, nothing changes and the store is not used. Errors: NoMemory and
    /// NotSaved, as in `save`; the book is then as before.
    pub fn unlock(&mut self, alloc: Global, name: &PlainName) -> Result<bool, SaveFault>
        ensures found { IfOk result (λ found. found ≡ is_some (token_at self.old.book name.now)) }
        ensures unlocked { OnOk result (IsUnlocked self.old.book name.now self.new.book) }
        ensures ok { IfOk result (λ found. IsSavedIfDue S.IsStored found self.old.book (S.facts self.old.store) self.new.book
            (S.facts self.new.store)) }
        ensures undone { OnErr result (self.new.book ≡ self.old.book) }
        ensures err { IfErr result (λ fault. IsChangeUnsaved (λ old. IsUnlocked old name.now) self.old.book (S.facts self.old.store) fault
            (S.facts self.new.store)) }
        ensures unasked { IfErr result (λ fault. fault ≡ SaveFault.NoMemory → self.new.store ≡ self.old.store) }
    {
        let Some(before) = self.book.token(name) else {
            return Ok(false);
        };
        let mut next = before.copy();
        next.unlock();
        self.change_token(alloc, name, before, next)?;
        Ok(true)
    }

    /// Judges what the client of this account sent at a moment, as `Token::judge` does. PASS and FAIL are returned after the store
    /// has saved the text of the book with this attempt in it. LOCKED changes nothing, and neither does an attempt for an account
    /// without a token; the store is then not used. If the save fails, the book is as before, and the store holds the old text or
    /// that of the book with this attempt. An error means that there was no memory for the text to be saved; nothing has then
    /// changed.
    pub fn judge(
        &mut self,
        alloc: Global,
        name: &PlainName,
        moment: Moment,
        sent: SentCodes<'_>,
    ) -> Result<CodeJudged, AllocError>
        ensures ok { IfOk result (λ judged. IsCodeJudged S.IsStored self.old.book (S.facts self.old.store) name.now moment
            (texts_of sent.entry) judged self.new.book (S.facts self.new.store)) }
        ensures err { OnErr result ((self.new.book ≡ self.old.book) × (self.new.store ≡ self.old.store)) }
        // If nothing is to be saved, memory does not run out.
        ensures no_memory { OnErr result (IsToBeSaved self.old.book name.now moment (texts_of sent.entry)) }
    {
        law_of_moments(moment);
        let Some(before) = self.book.token(name) else {
            return Ok(CodeJudged::Replied(None));
        };
        let mut next = before.copy();
        let reply = next.judge(moment, sent);
        if reply == Reply::Locked {
            return Ok(CodeJudged::Replied(Some(reply)));
        }
        match self.change_token(alloc, name, before, next) {
            Ok(()) => Ok(CodeJudged::Replied(Some(reply))),
            Err(SaveFault::NotSaved) => Ok(CodeJudged::NotSaved),
            Err(SaveFault::NoMemory) => Err(AllocError),
        }
    }

    // Gives the account of this name the token `next` instead of `before`, and saves the book. After an error, which is one of
    // `save`, it has `before` again.
    fn change_token(
        &mut self,
        alloc: Global,
        name: &PlainName,
        before: Token,
        next: Token,
    ) -> Result<(), SaveFault>
        requires { token_at self.old.book name.now ≡ Some before }
        ensures changed { OnOk result (IsChanged self.old.book name.now (with_token next) self.new.book) }
        ensures saved { OnOk result (SavesBook S.IsStored (S.facts self.old.store) self.new.book (S.facts self.new.store)) }
        ensures undone { OnErr result (self.new.book ≡ self.old.book) }
        ensures err { IfErr result (λ fault. IsChangeUnsaved (λ old. IsChanged old name.now (with_token next)) self.old.book
            (S.facts self.old.store) fault (S.facts self.new.store)) }
        ensures unasked { IfErr result (λ fault. fault ≡ SaveFault.NoMemory → self.new.store ≡ self.old.store) }
    {
        self.book.put_token(name, next);
        match self.save(alloc) {
            Ok(()) => Ok(()),
            Err(fault) => {
                self.book.put_token(name, before);
                Err(fault)
            }
        }
    }
}
