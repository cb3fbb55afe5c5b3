//! The names of the program's options.
ghost use Rattle.std.specs.Prelude.{◌≡◌};
ghost use Rattle.command_line.specs.Options.{option_name};

use std::fmt;

/// An option of the program that has a value.
#[derive(Clone, Copy, Debug)]
pub enum OptionName {
    /// The file of the account book.
    Book,

    /// The file of the log to audit, to report or to upgrade.
    Log,

    /// The name of the account.
    Name,

    /// The name to act as (authzid).
    As,

    /// The path of the socket that `login` makes.
    Socket,

    /// The file that random bytes are read from.
    Random,

    /// The client's nonce, which is random if it is not given.
    ClientNonce,

    /// The server's part of the nonce, which is random if it is not given.
    ServerNonce,

    /// The SCRAM mechanism of keys or of a login.
    Mechanism,

    /// The salt of keys, in hexadecimal.
    Salt,

    /// The iteration count of keys.
    Count,

    /// The secret of a code, in hexadecimal.
    Secret,

    /// How many digits a code has.
    Digits,

    /// HOTP: the counter of a code.
    Counter,

    /// The moment of codes, in seconds since 1970.
    Moment,

    /// TOTP: the hash function of a code.
    Hash,

    /// TOTP: the moment at which step 0 begins.
    T0,

    /// TOTP: the length of a step in seconds.
    Step,

    /// The account whose rows are reported.
    Account,

    /// The kind of event whose rows are reported.
    Event,
}

impl OptionName {
    /// The option's name, without its hyphens.
    pub fn name(&self) -> &'static str
        ensures { result.now ≡ option_name self.now }
    {
        match self {
            OptionName::Book => "book",
            OptionName::Log => "log",
            OptionName::Name => "name",
            OptionName::As => "as",
            OptionName::Socket => "socket",
            OptionName::Random => "random",
            OptionName::ClientNonce => "client-nonce",
            OptionName::ServerNonce => "server-nonce",
            OptionName::Mechanism => "mechanism",
            OptionName::Salt => "salt",
            OptionName::Count => "count",
            OptionName::Secret => "secret",
            OptionName::Digits => "digits",
            OptionName::Counter => "counter",
            OptionName::Moment => "moment",
            OptionName::Hash => "hash",
            OptionName::T0 => "t0",
            OptionName::Step => "step",
            OptionName::Account => "account",
            OptionName::Event => "event",
        }
    }
}

impl fmt::Display for OptionName {
    ghost use Rattle.std.specs.Prelude.{Some};
    ghost use Rattle.command_line.specs.Options.{option_name};

    ghost output = { λ option. Some (option_name option) };

    fn fmt<W: fmt::Write>(&self, f: &mut fmt::Formatter<W>) -> fmt::Result {
        f.write_str(self.name())
    }
}
