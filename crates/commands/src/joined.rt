//! The words of a command line, with each value that may begin with a hyphen joined to its option.
ghost use Rattle.std.specs.Prelude.{◌≡◌, IfOk, map};
ghost use Rattle.commands.specs.Joined.{takes_hyphen, is_value_of, joined};

use std::alloc::{AllocError, Global};
use std::convert::AsStr;

/// The words of a command line as `clap` gets them: if the value of `--name`, `--as`, `--client-nonce` or `--server-nonce` is the
/// next word and begins with a hyphen, the two are one word, as in `--name=-x`. All others are as given. `clap` would take such a
/// word for another option. Errors: `AllocError` if memory runs out.
pub(crate) fn joined_words<S: AsStr>(alloc: Global, words: &[S]) -> Result<Vec<String>, AllocError>
    ensures { IfOk result (λ line. map ⟦<String as AsStr>⟧.text line.items ≡ joined (map S.text words.now)) }
{
    let mut line = Vec::new(alloc);
    let mut rest = words;
    while let [word, more @ ..] = rest {
        match more {
            [next, later @ ..] if is_value_of(word.as_str(), next.as_str()) => {
                line.push(format!(in alloc; "{}={}", word.as_str(), next.as_str())?)?;
                rest = later;
            }
            _ => {
                line.push(String::from_str(alloc, word.as_str())?)?;
                rest = more;
            }
        }
    }
    Ok(line)
}

// Whether `next` begins with a hyphen and is the value of the option that `word` names.
fn is_value_of(word: &str, next: &str) -> bool
    ensures { result ≡ is_value_of word.now next.now }
{
    matches!(next.as_bytes(), [b'-', ..]) && takes_hyphen(word)
}

// Whether a word names an option whose value may begin with a hyphen.
fn takes_hyphen(word: &str) -> bool
    ensures { result ≡ takes_hyphen word.now }
{
    matches!(
        word,
        "--name" | "--as" | "--client-nonce" | "--server-nonce"
    )
}
