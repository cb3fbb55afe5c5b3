//! The tokens of accounts, and attempts with codes.
ghost use Rattle.std.specs.Prelude.{◌≡◌, is_some};
ghost use Rattle.otp_core.specs.Attempt.CodeTexts.{one_text, two_texts};
ghost use Rattle.otp_core.specs.Attempt.{texts_of};
ghost use Rattle.account_book.specs.AccountAttempt.{account_attempt_of};
ghost use Rattle.account_book.specs.Accounts.{account_at, IsChanged};
ghost use Rattle.account_book.specs.Tokens.{IsBookAttempt, IsUnlocked, token_at, with_token};

use crate::book::Book;
use otp_core::{Moment, Reply, SentCodes, Token, law_of_moments};
use scram_text::PlainName;

impl Book {
    /// A copy of the token of the account of this name, or None if there is no such account or it has no token.
    pub fn token(&self, name: &PlainName) -> Option<Token>
        ensures { result ≡ token_at self.now name.now }
    {
        let account = self.account(name)?;
        let token = account.token.as_ref()?;
        Some(token.copy())
    }

    /// Gives the account of this name this token, instead of any that it had. Returns whether there is such an account; if there is
    /// none, nothing changes.
    pub fn put_token(&mut self, name: &PlainName, token: Token) -> bool
        ensures found { result ≡ is_some (account_at self.old name.now) }
        ensures put { IsChanged self.old name.now (with_token token) self.new }
    {
        match self.contents.accounts.get_mut(name) {
            Some(account) => {
                account.token = Some(token);
                true
            }
            None => false,
        }
    }

    /// Judges `text` as a code at `moment` with the token of the account of this name, as `Token::attempt` does, and keeps the
    /// changed token. Returns None, and changes nothing, if there is no such account or it has no token.
    pub fn attempt(&mut self, name: &PlainName, moment: Moment, text: &[u8]) -> Option<Reply>
        ensures { IsBookAttempt self.old (account_attempt_of name.now moment (one_text text.now) result) self.new }
    {
        self.judge(name, moment, SentCodes::One(text))
    }

    /// Judges two texts as codes in a row at `moment` with the token of the account of this name, as `Token::sync` does, and keeps
    /// the changed token. Returns None, and changes nothing, if there is no such account or it has no token.
    pub fn sync(
        &mut self,
        name: &PlainName,
        moment: Moment,
        first: &[u8],
        second: &[u8],
    ) -> Option<Reply>
        ensures { IsBookAttempt self.old (account_attempt_of name.now moment (two_texts first.now second.now) result) self.new }
    {
        self.judge(name, moment, SentCodes::Two(first, second))
    }

    /// Judges what was sent, at `moment`, with the token of the account of this name: one text as `attempt` does, two as `sync`
    /// does.
    pub fn judge(&mut self, name: &PlainName, moment: Moment, sent: SentCodes<'_>) -> Option<Reply>
        ensures { IsBookAttempt self.old (account_attempt_of name.now moment (texts_of sent.entry) result) self.new }
    {
        law_of_moments(moment);
        let account = self.contents.accounts.get_mut(name)?;
        let token = account.token.as_mut()?;
        Some(token.judge(moment, sent))
    }

    /// Sets the failures of the token of the account of this name to 0. Returns whether there is such an account and it has a
    /// token; if not, nothing changes.
    pub fn unlock(&mut self, name: &PlainName) -> bool
        ensures found { result ≡ is_some (token_at self.old name.now) }
        ensures unlocked { IsUnlocked self.old name.now self.new }
    {
        let Some(mut token) = self.token(name) else {
            return false;
        };
        token.unlock();
        self.put_token(name, token)
    }
}
