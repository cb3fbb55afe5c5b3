//! Writes texts while one request for memory, whichever it is, is refused. The call then returns 99 and leaves the vector that it
//! appends to unchanged, and the same call made again writes the text.
use crate::service::refusal;
use sasl_log::{
    ClientLine, Line, NoMemory, Payload, ServerLine, escape, read_line, read_log_line,
    read_numbered_line, write_line, write_log_line, write_numbered_line,
};
use scram_text::{
    NoncePart, PlainName, SaslText, WriteFault, read_client_final, read_client_first,
    read_server_final, read_server_first, write_client_final, write_client_first, write_name,
    write_server_final, write_server_first,
};
use std::alloc::Global;
use std::fs::Files;
use std::{fs, io, str};

// The result of a function that writes a message, with its fault as a number.
fn of_message(answer: Result<(), WriteFault>) -> Result<(), u16> {
    match answer {
        Ok(()) => Ok(()),
        Err(fault) => Err(fault.number()),
    }
}

// The name that the client wants to act as, if it gives one. None if that is no name.
fn acting_as(authzid: Option<SaslText<'_>>) -> Option<Option<PlainName>> {
    match authzid {
        Some(spelled) => Some(Some(spelled.plain()?)),
        None => Some(None),
    }
}

// Reads a client-first message, and writes it again to `out`.
fn client_first(text: &[u8], out: &mut Vec<u8>) -> Option<Result<(), u16>> {
    let read = read_client_first(text).ok()?;
    let (name, nonce) = (read.name.plain()?, NoncePart::new(read.nonce)?);
    let authzid = acting_as(read.authzid)?;
    let authzid = authzid.as_ref();
    Some(of_message(write_client_first(read.flag, authzid, &name, &nonce, read.extensions, out)))
}

// Reads a server-first message, and writes it again to `out`.
fn server_first(text: &[u8], out: &mut Vec<u8>) -> Option<Result<(), u16>> {
    let read = read_server_first(text).ok()?;
    Some(of_message(write_server_first(read.nonce, &read.salt, read.count, read.extensions, out)))
}

// Reads a client-final message, and writes it again to `out`.
fn client_final(text: &[u8], out: &mut Vec<u8>) -> Option<Result<(), u16>> {
    let read = read_client_final(text).ok()?;
    let channel = read.channel.as_slice();
    Some(of_message(write_client_final(channel, read.nonce, read.extensions, &read.proof, out)))
}

// Reads a server-final message, and writes it again to `out`.
fn server_final(text: &[u8], out: &mut Vec<u8>) -> Option<Result<(), u16>> {
    let read = read_server_final(text).ok()?;
    Some(of_message(write_server_final(read.result, read.extensions, out)))
}

// Appends a name as it is written in messages (RFC 5802, section 5.1).
fn name(text: &[u8], out: &mut Vec<u8>) -> Option<Result<(), u16>> {
    Some(of_message(write_name(&PlainName::new(text)?, out)))
}

// The result of a function that writes a line, with its fault as a number.
fn of_line(answer: Result<(), NoMemory>) -> Result<(), u16> {
    match answer {
        Ok(()) => Ok(()),
        Err(fault) => Err(fault.number()),
    }
}

// Reads a line of the protocol, and writes it again to `out`.
fn line(text: &[u8], out: &mut Vec<u8>) -> Option<Result<(), u16>> {
    let line = read_line(text).ok()?;
    Some(of_line(write_line(&line, out)))
}

// Reads a line of a log of version 1, and writes it again to `out`.
fn log_line(text: &[u8], out: &mut Vec<u8>) -> Option<Result<(), u16>> {
    let line = read_log_line(text).ok()?;
    Some(of_line(write_log_line(&line, out)))
}

// Reads a line of a log of version 2, and writes it again to `out`.
fn numbered_line(text: &[u8], out: &mut Vec<u8>) -> Option<Result<(), u16>> {
    let (session, line) = read_numbered_line(text).ok()?;
    Some(of_line(write_numbered_line(session, &line, out)))
}

// Appends a message as it is escaped in lines.
fn spelled(text: &[u8], out: &mut Vec<u8>) -> Option<Result<(), u16>> {
    Some(of_line(escape(text, out)))
}

// The message of a line, or None if the line has none.
fn message_of(line: Line<'_>) -> Option<Payload<'_>> {
    match line {
        Line::FromServer(
            ServerLine::Cont(message) | ServerLine::Accepts(message) | ServerLine::Refuses(message),
        )
        | Line::FromClient(ClientLine::AuthWith(_, message) | ClientLine::Resp(message)) => {
            Some(message)
        }
        _ => None,
    }
}

// Appends the bytes of a line's message. Also 99 if there is no memory to append them.
fn message(alloc: Global, text: &[u8], out: &mut Vec<u8>) -> Option<Result<(), u16>> {
    match message_of(read_line(text).ok()?)?.bytes(alloc) {
        Ok(bytes) => Some(out.extend_from_slice(bytes.as_slice()).map_err(|_| 99)),
        Err(fault) => Some(Err(fault.number())),
    }
}

// Reads a text of this kind, and writes it again to `out`. None if it is not of that kind; an error is the number of the fault.
fn appended(alloc: Global, kind: &str, text: &[u8], out: &mut Vec<u8>) -> Option<Result<(), u16>> {
    match kind {
        "client-first" => client_first(text, out),
        "server-first" => server_first(text, out),
        "client-final" => client_final(text, out),
        "server-final" => server_final(text, out),
        "name" => name(text, out),
        "line" => line(text, out),
        "log-line" => log_line(text, out),
        "numbered-line" => numbered_line(text, out),
        "spelled" => spelled(text, out),
        "message" => message(alloc, text, out),
        _ => None,
    }
}

// Calls `appended`, and calls it again if it returned 99 and appended nothing. Returns how often it did so, 0 or 1; None for any
// other outcome.
fn written(alloc: Global, kind: &str, text: &[u8], out: &mut Vec<u8>) -> Option<u32> {
    for refused in [0, 1] {
        match appended(alloc, kind, text, out)? {
            Ok(()) => return Some(refused),
            Err(99) if out.as_slice() == kind.as_bytes() => {}
            Err(_) => return None,
        }
    }
    None
}

// Prints how often memory ran out for a text of this kind, the kind, and what was written.
fn print_text(rt: &(impl Print + AllocGlobal), kind: &str, text: &[u8]) -> io::Result<()> {
    let mut out = Vec::new(rt.alloc());
    out.extend_from_slice(kind.as_bytes())?;
    let refused = written(rt.alloc(), kind, text, &mut out);
    let text = out
        .as_slice()
        .strip_prefix(kind.as_bytes())
        .unwrap_or_default();
    match (refused, str::from_utf8(text)) {
        (Some(count), Ok(text)) => println!(rt; "{count} {kind} {text}"),
        _ => println!(rt; "none {kind}"),
    }
}

/// Each line of the file at `path` is a kind, a space and a text of that kind. Writes each text again, and prints how often memory
/// ran out for it, the kind, and what was written.
pub(crate) fn print_texts<R>(rt: &R, path: &str) -> io::Result<()>
where
    R: Print + Files + AllocGlobal,
{
    let bytes = fs::read(rt, path)?;
    let Ok(text) = str::from_utf8(bytes.as_slice()) else {
        return Err(refusal());
    };
    for line in text.lines() {
        let Some((kind, text)) = line.split_once(' ') else {
            return Err(refusal());
        };
        print_text(rt, kind, text.as_bytes())?;
    }
    Ok(())
}
