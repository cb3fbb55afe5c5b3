//! The command `keys`: prints the two keys that a server stores for a password (RFC 5802, section 3).
ghost use Rattle.std.specs.Prelude.{◌≡◌, ◌≤◌, ◌⊎◌, ℕ, List, IfErr, IfOk, OnOk, string_bytes};
ghost use Rattle.std.specs.Io.KnownBytes.{Appends};
ghost use Rattle.scram_text.specs.Class.{IsPassword};
ghost use Rattle.command_io.specs.Input.{IsFirstLine, HasBadPassword};
ghost use Rattle.command_io.specs.Printed.{PrintsNothingUnlessOutputFailed};
ghost use Rattle.account_commands.specs.Keys.{printed_keys, CannotPrintKeys, PrintsKeysAsked};

use clap::ArgMatches;
use command_io::input;
use command_io::output::print;
use command_io::prompt::{PASSWORD, ask};
use command_io::terminal::{TerminalInput, TerminalOutput};
use command_line::{Fault, OptionName, value};
use command_words::given;
use mac_core::Mechanism;
use scram_text::{Password, Salt};
use std::alloc::Global;
use std::io::{BufRead, Write};

/// Checks the options in their order, reads the password, and prints its keys. At a terminal it asks for the password. Faults:
/// BadValue and BadPassword, in this order (no clause says so); also CannotReadInput, CannotWriteOutput and NoMemory.
pub fn keys<I: TerminalInput, O: Write, E: TerminalOutput>(
    alloc: Global,
    matches: &ArgMatches<'_>,
    input: &mut I,
    output: &mut O,
    faults: &mut E,
) -> Result<(), Fault>
    ensures ok { OnOk result (PrintsKeysAsked matches.now (I.remaining input.old) (O.contents output.old) (O.contents output.new)) }
    ensures err { IfErr result (λ fault. PrintsNothingUnlessOutputFailed fault (O.contents output.old) (O.contents output.new)) }
    ensures why { IfErr result (CannotPrintKeys matches.now (I.remaining input.old)) }
{
    let mechanism = value::mechanism(given(matches, OptionName::Mechanism))?;
    let salt = value::salt(alloc, given(matches, OptionName::Salt))?;
    let count = value::count(given(matches, OptionName::Count))?;
    ask(input, faults, PASSWORD);
    print_keys(alloc, mechanism, &salt, count, input, output)
}

// Reads a line, which has to be a password, and prints its keys.
fn print_keys<I: BufRead, O: Write>(
    alloc: Global,
    mechanism: Mechanism,
    salt: &Salt,
    count: u32,
    input: &mut I,
    output: &mut O,
) -> Result<(), Fault>
    requires { 1 ≤ count }
    // The first line is a password, and its keys are printed.
    ensures ok { OnOk result ((password : List ℕ) × IsFirstLine (I.remaining input.old) password × IsPassword password
        × Appends (O.contents output.old) (O.contents output.new) (printed_keys mechanism password salt.now count)) }
    // A stream failed, memory ran out, or the first line is not a password.
    ensures err { IfErr result (λ fault. (fault ≡ Fault.CannotReadInput) ⊎ ((fault ≡ Fault.CannotWriteOutput)
        ⊎ ((fault ≡ Fault.NoMemory) ⊎ HasBadPassword (I.remaining input.old) fault))) }
    ensures unprinted { IfErr result (λ fault. PrintsNothingUnlessOutputFailed fault (O.contents output.old) (O.contents output.new)) }
{
    let line = input::first_line(alloc, input)?;
    let text = keys_text(alloc, mechanism, salt, count, line.as_slice())?;
    print(text.as_bytes(), output)
}

// The two lines to print for a password. Faults: BadPassword if the line is not a password, and NoMemory.
fn keys_text(
    alloc: Global,
    mechanism: Mechanism,
    salt: &Salt,
    count: u32,
    line: &[u8],
) -> Result<String, Fault>
    requires { 1 ≤ count }
    ensures ok { IfOk result (λ text. IsPassword line.now
        × (string_bytes text ≡ printed_keys mechanism line.now salt.now count)) }
    ensures err { IfErr result (λ fault. (fault ≡ Fault.NoMemory)
        ⊎ ((fault ≡ Fault.BadPassword) × (IsPassword line.now → ⊥))) }
{
    let Some(password) = Password::new(line) else {
        return Err(Fault::BadPassword);
    };
    let keys = mechanism.scram_keys(password.bytes(), salt.bytes(), count);
    let stored = hex::encode(alloc, keys.stored.as_slice())?;
    let server = hex::encode(alloc, keys.server.as_slice())?;
    Ok(format!(in alloc; "stored={stored}\nserver={server}\n")?)
}
