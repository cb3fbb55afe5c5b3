//! What every command needs: `value` checks the values of options, `Fault` is why a command fails, with its text and exit status,
//! and `TerminalText` shows a text that came from outside.
//!
//! ```rust
//! use command_line::{Fault, OptionName, value};
//!
//! assert!(rt; value::number_within(OptionName::Step, "30", 1, 3600).is_ok_and(|step| step == 30));
//! let fault: Fault = value::name("").err().ok_or("a name of no byte")?;
//! assert_eq!(rt; fault.status(), 2);
//! ```
#![tactic(auto)]

mod fault;
mod option_name;
pub mod status;
mod terminal_text;
pub mod value;

pub use fault::Fault;
pub use option_name::OptionName;
pub use terminal_text::TerminalText;
