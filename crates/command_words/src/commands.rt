//! The program's commands, their options and their help.
ghost use Rattle.std.specs.Prelude.{◌≡◌, false, codes, IfOk};
ghost use Rattle.clap.specs.Words.{app_of, rule_of};
ghost use Rattle.command_words.specs.Commands.{one_value, required_value, with_default, program, HasOptions, keys_options};
ghost use Rattle.command_words.specs.Commands.{enrol_options, code_options, verify_options, unlock_options, login_options, hall_options};
ghost use Rattle.command_words.specs.Commands.{audit_options, report_options, upgrade_options};

mod notes;

use crate::commands::notes::{
    AUDIT_NOTES, CODE_NOTES, ENROL_NOTES, HALL_NOTES, KEYS_NOTES, LOGIN_NOTES, REPORT_NOTES,
    STATUSES, UNLOCK_NOTES, UPGRADE_NOTES, VERIFY_NOTES,
};
use clap::{Arg, ArgAction, Command};
use command_line::OptionName;
use std::alloc::{AllocError, Global};

/// The program's commands and their options, with their help. Errors: `AllocError` if memory runs out.
pub fn program_commands<'a>(alloc: Global) -> Result<Command<'a>, AllocError>
    ensures { IfOk result (λ command. app_of command ≡ program) }
{
    Command::new(alloc, "scramotp")
        .bin_name("scramotp")?
        .version("0.1.0")
        .about(
            "Check SCRAM logins and one-time codes against a book of accounts, and audit their logs",
        )
        .after_help(STATUSES)
        .subcommand_required(true)
        .disable_help_subcommand(true)
        .subcommand(keys(alloc)?)?
        .subcommand(enrol(alloc)?)?
        .subcommand(code(alloc)?)?
        .subcommand(verify(alloc)?)?
        .subcommand(unlock(alloc)?)?
        .subcommand(login(alloc)?)?
        .subcommand(hall(alloc)?)?
        .subcommand(audit(alloc)?)?
        .subcommand(report(alloc)?)?
        .subcommand(upgrade(alloc)?)
}

fn keys<'a>(alloc: Global) -> Result<Command<'a>, AllocError>
    ensures { IfOk result (HasOptions (codes "keys") keys_options) }
{
    Command::new(alloc, "keys")
        .about("Print the stored key and the server key of a password")
        .after_help(KEYS_NOTES)
        .arg(required(
            alloc,
            OptionName::Mechanism,
            "NAME",
            "SCRAM-SHA-1 or SCRAM-SHA-256",
        ))?
        .arg(required(
            alloc,
            OptionName::Salt,
            "HEX",
            "The salt, 1 to 64 bytes in hexadecimal",
        ))?
        .arg(required(
            alloc,
            OptionName::Count,
            "N",
            "The iteration count, 1 to 4294967295",
        ))
}

fn enrol<'a>(alloc: Global) -> Result<Command<'a>, AllocError>
    ensures { IfOk result (HasOptions (codes "enrol") enrol_options) }
{
    let count = "The iteration count, 1 to 4294967295";
    Command::new(alloc, "enrol")
        .about("Add an account with a password to a book")
        .after_help(ENROL_NOTES)
        .arg(book(alloc))?
        .arg(name(alloc))?
        .arg(with_default(alloc, OptionName::Count, "N", count, "4096"))?
        .arg(random(alloc))
}

fn code<'a>(alloc: Global) -> Result<Command<'a>, AllocError>
    ensures { IfOk result (HasOptions (codes "code") code_options) }
{
    let digits = "The number of digits, 6 to 8";
    let hash = "TOTP: the hash function, sha1, sha256 or sha512";
    let t0 = "TOTP: the time at which step 0 begins, 0 to 253402300799";
    let step = "TOTP: the length of a step in seconds, 1 to 3600";
    Command::new(alloc, "code")
        .about("Print a one-time code")
        .after_help(CODE_NOTES)
        .arg(required(
            alloc,
            OptionName::Secret,
            "HEX",
            "The secret, 10 to 64 bytes in hexadecimal",
        ))?
        .arg(with_default(alloc, OptionName::Digits, "N", digits, "6"))?
        .arg(one_value(
            alloc,
            OptionName::Counter,
            "N",
            "HOTP: the counter, 0 to 9223372036854775806",
        ))?
        .arg(one_value(
            alloc,
            OptionName::Moment,
            "SECONDS",
            "TOTP: the time, in seconds since 1970, 0 to 253402300799",
        ))?
        .arg(with_default(alloc, OptionName::Hash, "NAME", hash, "sha1"))?
        .arg(with_default(alloc, OptionName::T0, "SECONDS", t0, "0"))?
        .arg(with_default(alloc, OptionName::Step, "SECONDS", step, "30"))
}

fn verify<'a>(alloc: Global) -> Result<Command<'a>, AllocError>
    ensures { IfOk result (HasOptions (codes "verify") verify_options) }
{
    Command::new(alloc, "verify")
        .about("Check one-time codes against an account's token")
        .after_help(VERIFY_NOTES)
        .arg(book(alloc))?
        .arg(name(alloc))?
        .arg(required(
            alloc,
            OptionName::Moment,
            "SECONDS",
            "The time of the codes, in seconds since 1970, 0 to 253402300799",
        ))
}

fn unlock<'a>(alloc: Global) -> Result<Command<'a>, AllocError>
    ensures { IfOk result (HasOptions (codes "unlock") unlock_options) }
{
    Command::new(alloc, "unlock")
        .about("Unlock an account's token")
        .after_help(UNLOCK_NOTES)
        .arg(book(alloc))?
        .arg(name(alloc))
}

fn login<'a>(alloc: Global) -> Result<Command<'a>, AllocError>
    ensures { IfOk result (HasOptions (codes "login") login_options) }
{
    let mechanism = "SCRAM-SHA-1 or SCRAM-SHA-256 [default: the best one offered]";
    let moment = "The time of the codes, in seconds since 1970 [default: now]";
    Command::new(alloc, "login")
        .about("Run one login, as server and as client, and print the server's log")
        .after_help(LOGIN_NOTES)
        .arg(book(alloc))?
        .arg(name(alloc))?
        .arg(one_value(alloc, OptionName::Mechanism, "NAME", mechanism))?
        .arg(one_value(
            alloc,
            OptionName::As,
            "NAME",
            "The name to act as (authorization identity)",
        ))?
        .arg(required(
            alloc,
            OptionName::Socket,
            "FILE",
            "The path of the socket to create, at most 107 bytes",
        ))?
        .arg(random(alloc))?
        .arg(one_value(
            alloc,
            OptionName::ClientNonce,
            "TEXT",
            "The client's nonce, 1 to 256 bytes from ! to ~, except commas",
        ))?
        .arg(one_value(
            alloc,
            OptionName::ServerNonce,
            "TEXT",
            "The server's part of the nonce, in the same form",
        ))?
        .arg(one_value(alloc, OptionName::Moment, "SECONDS", moment))
}

fn hall<'a>(alloc: Global) -> Result<Command<'a>, AllocError>
    ensures { IfOk result (HasOptions (codes "hall") hall_options) }
{
    Command::new(alloc, "hall")
        .about("Check up to 64 logins at a time, given as events, and print their log")
        .after_help(HALL_NOTES)
        .arg(book(alloc))
}

fn audit<'a>(alloc: Global) -> Result<Command<'a>, AllocError>
    ensures { IfOk result (HasOptions (codes "audit") audit_options) }
{
    Command::new(alloc, "audit")
        .about("Check a log against the book that it began with")
        .after_help(AUDIT_NOTES)
        .arg(book(alloc))?
        .arg(required(alloc, OptionName::Log, "FILE", "The log to check"))
}

fn report<'a>(alloc: Global) -> Result<Command<'a>, AllocError>
    ensures { IfOk result (HasOptions (codes "report") report_options) }
{
    let account = "Only the rows of the account with this name";
    let event = "Only the rows of this kind, such as accepted";
    Command::new(alloc, "report")
        .about("List who was let in by a log, who was refused, and why")
        .after_help(REPORT_NOTES)
        .arg(book(alloc))?
        .arg(required(alloc, OptionName::Log, "FILE", "The log to report"))?
        .arg(one_value(alloc, OptionName::Account, "NAME", account))?
        .arg(one_value(alloc, OptionName::Event, "EVENT", event))
}

fn upgrade<'a>(alloc: Global) -> Result<Command<'a>, AllocError>
    ensures { IfOk result (HasOptions (codes "upgrade") upgrade_options) }
{
    Command::new(alloc, "upgrade")
        .about("Convert a log from version 1 to version 2, which numbers its sessions")
        .after_help(UPGRADE_NOTES)
        .arg(required(alloc, OptionName::Log, "FILE", "The log to convert"))
}

fn book<'a>(alloc: Global) -> Arg<'a>
    ensures rule { rule_of result ≡ required_value OptionName.Book }
    ensures local { result.global ≡ false }
{
    required(alloc, OptionName::Book, "FILE", "The account book")
}

fn name<'a>(alloc: Global) -> Arg<'a>
    ensures rule { rule_of result ≡ required_value OptionName.Name }
    ensures local { result.global ≡ false }
{
    required(
        alloc,
        OptionName::Name,
        "NAME",
        "The account's name, 1 to 255 printable ASCII characters",
    )
}

fn random<'a>(alloc: Global) -> Arg<'a>
    ensures rule { rule_of result ≡ with_default OptionName.Random (codes "/dev/urandom") }
    ensures local { result.global ≡ false }
{
    with_default(
        alloc,
        OptionName::Random,
        "FILE",
        "The file to read random bytes from",
        "/dev/urandom",
    )
}

fn required<'a>(alloc: Global, name: OptionName, value: &'a str, help: &'a str) -> Arg<'a>
    ensures rule { rule_of result ≡ required_value name }
    ensures local { result.global ≡ false }
{
    one_value(alloc, name, value, help).required(true)
}

fn with_default<'a>(
    alloc: Global,
    name: OptionName,
    value: &'a str,
    help: &'a str,
    default: &'a str,
) -> Arg<'a>
    ensures rule { rule_of result ≡ with_default name default.now }
    ensures local { result.global ≡ false }
{
    one_value(alloc, name, value, help).default_value(default)
}

fn one_value<'a>(alloc: Global, name: OptionName, value: &'a str, help: &'a str) -> Arg<'a>
    ensures rule { rule_of result ≡ one_value name }
    ensures local { result.global ≡ false }
{
    let name: &'a str = name.name();
    Arg::new(alloc, name)
        .long(name)
        .value_name(value)
        .help(help)
        .action(ArgAction::Set)
}
