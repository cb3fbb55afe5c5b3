//! `scramotp`: SCRAM keys and logins (RFC 5802, RFC 7677), one-time codes (RFC 4226, RFC 6238), a book of accounts, and the
//! audit of a log, on the command line.
//!
//! `main` passes the words, the streams and the runtime to `commands::run`, which does all the work.
#![tactic(auto)]

use command_line::Fault;
use command_line::status::USAGE;
use commands::run;
use std::io::{BufReader, BufWriter, ErrorKind, Lock};
use std::process::ExitCode;
use std::{env, io};

fn main(rt: HostRuntime) -> ExitCode {
    let alloc = rt.alloc();
    let words: Vec<String> = match env::args(&rt).and_then(|words| Ok(words.collect(alloc)?)) {
        Ok(words) => words,
        Err(error) if error.kind() == ErrorKind::OutOfMemory => return no_memory(&rt),
        Err(_) => {
            let _ = eprintln!(rt; "error: the arguments are not UTF-8 text");
            return ExitCode::from(USAGE);
        }
    };
    let (Ok(mut input), Ok(output), Ok(mut faults)) = (
        BufReader::new(alloc, rt.reader()),
        BufWriter::new(alloc, io::writer(&rt)),
        BufWriter::new(alloc, rt.stderr().lock()),
    ) else {
        return no_memory(&rt);
    };
    let (status, _) = run(&rt, words.as_slice(), &mut input, output, &mut faults);
    ExitCode::from(status)
}

// Ends a run that has too little memory even for its words and streams.
fn no_memory(rt: &impl Eprint) -> ExitCode {
    let fault = Fault::NoMemory;
    let _ = eprintln!(rt; "scramotp: {fault}");
    ExitCode::from(fault.status())
}
