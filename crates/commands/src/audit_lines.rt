//! The line printed for the answer of an audit or an upgrade, and the exit status for it.
ghost use Rattle.std.specs.Prelude.{◌≡◌, ◌≢◌, ◌++◌, Err, IfErr, IfOk, OnOk};
ghost use Rattle.log_grammar.specs.Lines.{line_text};
ghost use Rattle.log_grammar.specs.Payload.{escaped};
ghost use Rattle.commands.specs.Audit.{acceptance_line, fault_status, log_status, outcome_line, printed_audit, printed_clean};
ghost use Rattle.commands.specs.Audit.{printed_fault, printed_why, refusal_line};

use base64::engine::general_purpose::STANDARD;
use command_line::Fault;
use command_line::status::{DONE, FAILED, REFUSED};
use sasl_log::{AuditFault, AuditWhy, Clean, DueOutcome, NoText, escape, word, write_reply};
use std::alloc::Global;

/// The exit status for an answer of an audit.
pub(crate) fn audit_status(answer: &Result<Clean, AuditFault>) -> u8
    ensures { result ≡ log_status answer.now }
{
    match answer {
        Ok(_) => DONE,
        Err(fault) => fault_status(fault),
    }
}

/// The exit status for a fault of a log: 1 for a line at fault or too many lines, 3 if a read failed or memory ran out.
pub(crate) fn fault_status(fault: &AuditFault) -> u8
    ensures { result ≡ fault_status fault.now }
{
    match fault {
        AuditFault::At { .. } | AuditFault::TooManyLines => REFUSED,
        AuditFault::ReadFault | AuditFault::NoMemory => FAILED,
    }
}

/// The line, with its LF, printed for an answer of an audit. The only fault is NoMemory.
pub(crate) fn audit_line(
    alloc: Global,
    answer: &Result<Clean, AuditFault>,
) -> Result<Vec<u8>, Fault>
    ensures ok { IfOk result (λ line. (line.items ≡ printed_audit answer.now) × (answer.now ≢ Err AuditFault.NoMemory)) }
    ensures err { IfErr result (λ fault. fault ≡ Fault.NoMemory) }
{
    match answer {
        Ok(clean) => clean_line(alloc, clean),
        Err(fault) => fault_line(alloc, fault),
    }
}

/// The line, with its LF, printed for a fault of a log. `AuditFault::NoMemory` has no line: it is the command's fault NoMemory.
pub(crate) fn fault_line(alloc: Global, fault: &AuditFault) -> Result<Vec<u8>, Fault>
    ensures ok { IfOk result (λ line. (line.items ≡ printed_fault fault.now) × (fault.now ≢ AuditFault.NoMemory)) }
    ensures err { IfErr result (λ fault. fault ≡ Fault.NoMemory) }
{
    let mut text = Vec::new(alloc);
    match fault {
        AuditFault::At { line, why } => {
            text.extend_from_slice(format!(in alloc; "line {line}: ")?.as_bytes())?;
            add_why(alloc, why, &mut text)?;
            text.extend_from_slice(b"\n")?;
        }
        AuditFault::TooManyLines => text.extend_from_slice(b"too many lines\n")?,
        AuditFault::ReadFault => text.extend_from_slice(b"read fault\n")?,
        AuditFault::NoMemory => return Err(Fault::NoMemory),
    }
    Ok(text)
}

// The line, with its LF, printed for a clean log.
fn clean_line(alloc: Global, clean: &Clean) -> Result<Vec<u8>, Fault>
    ensures ok { IfOk result (λ line. line.items ≡ printed_clean clean.now) }
    ensures err { IfErr result (λ fault. fault ≡ Fault.NoMemory) }
{
    let (sessions, accepted, codes) = (clean.sessions, clean.accepted, clean.codes_passed);
    let line = format!(in alloc; "clean sessions={sessions} accepted={accepted} codes={codes}\n")?;
    Ok(line.into_bytes())
}

// Appends why a line is at fault, as it is printed.
fn add_why(alloc: Global, why: &AuditWhy, text: &mut Vec<u8>) -> Result<(), Fault>
    ensures ok { OnOk result (text.new.items ≡ text.old.items ++ printed_why why.now) }
    ensures err { IfErr result (λ fault. fault ≡ Fault.NoMemory) }
{
    match why {
        AuditWhy::Cut => text.extend_from_slice(b"cut")?,
        AuditWhy::NotALine => text.extend_from_slice(b"not a line")?,
        AuditWhy::Order => text.extend_from_slice(b"order")?,
        AuditWhy::Mechs => text.extend_from_slice(b"mechs")?,
        AuditWhy::Challenge => text.extend_from_slice(b"challenge")?,
        AuditWhy::Outcome(due) => {
            text.extend_from_slice(b"outcome, due ")?;
            add_outcome(alloc, due, text)?;
        }
        AuditWhy::Reply(due) => {
            text.extend_from_slice(b"reply, due ")?;
            write_reply(due.moment, due.reply, text).map_err(|_| Fault::NoMemory)?;
        }
    }
    Ok(())
}

// Appends the line of the outcome that is due, without an LF.
fn add_outcome(alloc: Global, due: &DueOutcome, text: &mut Vec<u8>) -> Result<(), Fault>
    ensures ok { OnOk result (text.new.items ≡ text.old.items ++ line_text (outcome_line due.now)) }
    ensures err { IfErr result (λ fault. fault ≡ Fault.NoMemory) }
{
    match due {
        DueOutcome::Accept(signature) => add_acceptance(alloc, signature.as_slice(), text),
        DueOutcome::Refuse(message) => add_refusal(alloc, *message, text),
    }
}

// Appends the line of an acceptance with this signature, without an LF.
fn add_acceptance(alloc: Global, signature: &[u8], text: &mut Vec<u8>) -> Result<(), Fault>
    ensures ok { OnOk result (text.new.items ≡ text.old.items ++ line_text (acceptance_line signature.now)) }
    ensures err { IfErr result (λ fault. fault ≡ Fault.NoMemory) }
{
    let verifier = STANDARD.encode(alloc, signature)?;
    let message = format!(in alloc; "v={verifier}")?;
    add_message(word::ACCEPTS, message.as_bytes(), text)
}

// Appends the line of this refusal, without an LF.
fn add_refusal(alloc: Global, refusal: NoText, text: &mut Vec<u8>) -> Result<(), Fault>
    ensures ok { OnOk result (text.new.items ≡ text.old.items ++ line_text (refusal_line refusal)) }
    ensures err { IfErr result (λ fault. fault ≡ Fault.NoMemory) }
{
    match refusal.error_value() {
        Some(value) => {
            let message = format!(in alloc; "e={value}")?;
            add_message(word::REFUSES, message.as_bytes(), text)
        }
        None => add_message(word::REFUSES, b"", text),
    }
}

// Appends a line with these words and this message, escaped, without an LF.
fn add_message(words: &[u8], message: &[u8], text: &mut Vec<u8>) -> Result<(), Fault>
    ensures ok { OnOk result (text.new.items ≡ text.old.items ++ (words.now ++ escaped message.now)) }
    ensures err { IfErr result (λ fault. fault ≡ Fault.NoMemory) }
{
    text.extend_from_slice(words)?;
    escape(message, text).map_err(|_| Fault::NoMemory)
}
