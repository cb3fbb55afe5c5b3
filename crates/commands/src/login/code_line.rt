//! The line that a client sends for an input line: one code, or two in a row.
ghost use Rattle.std.specs.Prelude.{◌≡◌, [], ◌∷◌, ◌++◌, IfOk, IfErr, take};
ghost use Rattle.std.specs.Str.{byte};
ghost use Rattle.sasl_desk.specs.{CodeTexts};
ghost use Rattle.commands.specs.SentCodes.{sent_for, SaysCodes};
ghost use Rattle.commands.specs.declared.login.TheConstants.{MAX_LINE_AND_LF_LEN};

use crate::login::MAX_LINE_AND_LF_LEN;
use crate::sent_codes::codes_in;
use command_line::Fault;
use sasl_desk::SentCodes;
use sasl_log::word;
use std::alloc::Global;

/// The line to send for an input line, with its LF: the input line itself if it is a SYNC line of the protocol; otherwise a CODE
/// line with it as the text, even if it can't be a code. The only fault is NoMemory.
pub(crate) fn code_line(alloc: Global, line: &[u8]) -> Result<Vec<u8>, Fault>
    ensures ok { IfOk result (λ said. (texts : CodeTexts) × SaysCodes line.now texts × (said.items ≡ sent_for line.now texts)) }
    ensures err { IfErr result (λ fault. fault ≡ Fault.NoMemory) }
{
    match codes_in(line) {
        SentCodes::One(_) => code_text_line(alloc, word::CODE, line),
        SentCodes::Two(_, _) => code_text_line(alloc, b"", line),
    }
}

// The words, then at most MAX_LINE_AND_LF_LEN bytes of the text, then an LF. A server reads no more of a line.
fn code_text_line(alloc: Global, words: &[u8], text: &[u8]) -> Result<Vec<u8>, Fault>
    ensures ok { IfOk result (λ line. line.items ≡ words.now ++ (take MAX_LINE_AND_LF_LEN text.now ++ byte "\n" ∷ [])) }
    ensures err { IfErr result (λ fault. fault ≡ Fault.NoMemory) }
{
    let mut line = Vec::new(alloc);
    line.extend_from_slice(words)?;
    line.extend_from_slice(first_bytes(text))?;
    line.extend_from_slice(b"\n")?;
    Ok(line)
}

// The first MAX_LINE_AND_LF_LEN bytes of the text, or all of it if it has fewer.
fn first_bytes(text: &[u8]) -> &[u8]
    ensures { result.now ≡ take MAX_LINE_AND_LF_LEN text.now }
{
    match text.get(..MAX_LINE_AND_LF_LEN) {
        Some(words) => words,
        None => text,
    }
}
