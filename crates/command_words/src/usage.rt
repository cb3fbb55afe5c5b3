//! The error text for words that the program does not understand.
use crate::commands::program_commands;
use command_line::TerminalText;
use std::alloc::{AllocError, Global};
use std::convert::AsStr;

/// The error text of `clap` for words that it refuses. The text quotes them, so `clap` gets them with their control characters
/// escaped. Errors: `AllocError` if memory runs out.
pub fn usage_text<S: AsStr>(alloc: Global, words: &[S]) -> Result<String, AllocError> {
    let shown = shown_words(alloc, words)?;
    match program_commands(alloc)?.try_get_matches_from(shown.as_slice()) {
        Err(error) => format!(in alloc; "{error}"),
        Ok(_) => format!(in alloc; "error: an argument has a control character\n"),
    }
}

// The words with their control characters escaped. Errors: `AllocError` if memory runs out.
fn shown_words<S: AsStr>(alloc: Global, words: &[S]) -> Result<Vec<String>, AllocError> {
    let mut shown = Vec::new(alloc);
    for word in words {
        shown.push(format!(in alloc; "{}", TerminalText(word.as_str()))?)?;
    }
    Ok(shown)
}
