//! Checks the options of a login.
ghost use Rattle.std.specs.Prelude.{◌≡◌, ℕ, List, Some, decimal, option_map, IfOk, IfErr, IfSome};
ghost use Rattle.scram_text.specs.Class.{IsNoncePart};
ghost use Rattle.command_words.specs.Values.{value_of};
ghost use Rattle.sasl_desk.specs.{IsMoment};
ghost use Rattle.commands.specs.Login.{IsUserAsked};
ghost use Rattle.commands.specs.LoginFaults.{HasBadLoginValue};

use crate::login::client_end::User;
use clap::ArgMatches;
use command_line::{Fault, OptionName, value};
use command_words::{given, optional};
use sasl_desk::Moment;
use scram_text::NoncePart;

/// What the words say about a login.
#[derive(Drop)]
pub(crate) struct LoginOptions {
    /// Who logs in, and how.
    pub(crate) user: User,

    /// The client's nonce, if it is given.
    pub(crate) client_nonce: Option<NoncePart>,

    /// The server's part of the nonce, if it is given.
    pub(crate) server_nonce: Option<NoncePart>,

    /// The moment of all codes, if it is given.
    pub(crate) moment: Option<Moment>,
}

/// Checks all options except the paths, in their order. The only fault is BadValue.
pub(crate) fn read_options(matches: &ArgMatches<'_>) -> Result<LoginOptions, Fault>
    ensures user { IfOk result (λ options. IsUserAsked matches.now options.user) }
    ensures client_nonce { IfOk result (λ options. options.client_nonce ≡ value_of matches.now OptionName.ClientNonce) }
    ensures server_nonce { IfOk result (λ options. options.server_nonce ≡ value_of matches.now OptionName.ServerNonce) }
    ensures nonces { IfOk result (λ options. IfSome options.client_nonce IsNoncePart × IfSome options.server_nonce IsNoncePart) }
    ensures moment { IfOk result (λ options. (option_map decimal options.moment ≡ value_of matches.now OptionName.Moment)
        × IfSome options.moment IsMoment) }
    ensures err { IfErr result (HasBadLoginValue matches.now) }
{
    let name = value::name(given(matches, OptionName::Name))?;
    let mechanism = match optional(matches, OptionName::Mechanism) {
        Some(text) => Some(value::mechanism(text)?),
        None => None,
    };
    let authzid = match optional(matches, OptionName::As) {
        Some(text) => Some(value::authzid(text)?),
        None => None,
    };
    let client_nonce = optional_nonce(matches, OptionName::ClientNonce)?;
    let server_nonce = optional_nonce(matches, OptionName::ServerNonce)?;
    let moment = match optional(matches, OptionName::Moment) {
        Some(text) => Some(value::moment(OptionName::Moment, text)?),
        None => None,
    };
    Ok(LoginOptions {
        user: User {
            mechanism,
            name,
            authzid,
        },
        client_nonce,
        server_nonce,
        moment,
    })
}

// The nonce that an option gives, or None if the option is not given. The only fault is BadValue, if the value is not a nonce.
fn optional_nonce(matches: &ArgMatches<'_>, option: OptionName) -> Result<Option<NoncePart>, Fault>
    ensures ok { IfOk result (λ nonce. nonce ≡ value_of matches.now option) }
    ensures range { IfOk result (λ nonce. IfSome nonce IsNoncePart) }
    ensures err { IfErr result (λ fault. (fault ≡ Fault.BadValue option)
        × ((text : List ℕ) × (value_of matches.now option ≡ Some text) × (IsNoncePart text → ⊥))) }
{
    match optional(matches, option) {
        Some(text) => Ok(Some(value::nonce(option, text)?)),
        None => Ok(None),
    }
}
