//! The command `code`: prints the one-time code for a counter or a moment.
ghost use Rattle.std.specs.Prelude.{◌≡◌, IfErr, IfOk, OnOk};
ghost use Rattle.command_io.specs.Printed.{PrintsNothingUnlessOutputFailed};
ghost use Rattle.account_commands.specs.Code.{IsCodeFor, IsTooEarly, IsFactorAsked, IsFactorInRange, PrintsCodeAsked};
ghost use Rattle.account_commands.specs.Code.{CannotPrintCode, LacksFactor};

use crate::moving_factor::{MovingFactor, TotpInput};
use clap::ArgMatches;
use command_io::output::print_line;
use command_line::{Fault, OptionName, value};
use command_words::{given, optional};
use otp_core::{Code, Digits, MAX_COUNTER, MAX_STEP, OtpHash, Secret, step};
use std::alloc::Global;
use std::io::Write;

/// Checks the options in their order and prints the code. Faults: BadValue, NoCounterOrMoment and BeforeFirstStep, in this order
/// (no clause says so); also CannotWriteOutput and NoMemory.
pub fn code<O: Write>(alloc: Global, matches: &ArgMatches<'_>, output: &mut O) -> Result<(), Fault>
    ensures ok { OnOk result (PrintsCodeAsked matches.now (O.contents output.old) (O.contents output.new)) }
    ensures err { IfErr result (λ fault. PrintsNothingUnlessOutputFailed fault (O.contents output.old) (O.contents output.new)) }
    ensures why { IfErr result (CannotPrintCode matches.now) }
{
    let secret = value::secret(alloc, given(matches, OptionName::Secret))?;
    let digits = value::digits(given(matches, OptionName::Digits))?;
    let factor = read_options(matches)?;
    let code = code_for(&secret, digits, &factor)?;
    print_line(code.text(), output)
}

// Checks the options that say which code is meant, in their order. Faults: BadValue and NoCounterOrMoment.
fn read_options(matches: &ArgMatches<'_>) -> Result<MovingFactor, Fault>
    ensures asked { IfOk result (IsFactorAsked matches.now) }
    ensures range { IfOk result IsFactorInRange }
    ensures why { IfErr result (LacksFactor matches.now) }
{
    let counter = match optional(matches, OptionName::Counter) {
        Some(text) => Some(value::number_within(OptionName::Counter, text, 0, MAX_COUNTER)?),
        None => None,
    };
    let moment = match optional(matches, OptionName::Moment) {
        Some(text) => Some(value::moment(OptionName::Moment, text)?),
        None => None,
    };
    let hash = value::hash(given(matches, OptionName::Hash))?;
    let t0 = value::moment(OptionName::T0, given(matches, OptionName::T0))?;
    let step = value::number_within(
        OptionName::Step,
        given(matches, OptionName::Step),
        1,
        MAX_STEP,
    )?;
    match (counter, moment) {
        (Some(counter), _) => Ok(MovingFactor::Counter(counter)),
        (None, Some(moment)) => Ok(MovingFactor::Time(TotpInput {
            hash,
            moment,
            t0,
            step,
        })),
        (None, None) => Err(Fault::NoCounterOrMoment),
    }
}

// The code of a secret, or BeforeFirstStep if the moment is before T0.
fn code_for(secret: &Secret, digits: Digits, factor: &MovingFactor) -> Result<Code, Fault>
    ensures ok { IfOk result (λ code. IsCodeFor factor.now digits secret.now code) }
    ensures err { IfErr result (λ fault. (fault ≡ Fault.BeforeFirstStep) × IsTooEarly factor.now) }
{
    match factor {
        MovingFactor::Counter(counter) => Ok(OtpHash::Sha1.hotp(secret, *counter, digits)),
        MovingFactor::Time(time) => match step(time.moment, time.t0, time.step) {
            Some(counter) => Ok(time.hash.hotp(secret, counter, digits)),
            None => Err(Fault::BeforeFirstStep),
        },
    }
}
