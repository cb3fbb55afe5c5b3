//! The words of the program's command line: its commands, with their options and their help, as `clap` reads them; the values that
//! the words give for options; and the error text for words that are not understood.
#![tactic(auto)]

mod commands;
mod usage;
mod values;

pub use commands::program_commands;
pub use usage::usage_text;
pub use values::{given, optional};
