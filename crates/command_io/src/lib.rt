//! What the commands share: the book that a run holds, the lines of its input, its output, terminals, prompts, random bytes and
//! files.
#![tactic(auto)]

pub mod file;
pub mod held_book;
pub mod input;
pub mod new_account;
pub mod open_book;
pub mod output;
pub mod prompt;
pub mod random;
pub mod terminal;
