//! The program's commands: `verify`, `login`, `hall`, `audit`, `report` and `upgrade` are here, the others in `account_commands`.
//!
//! `run` finds the command that the words name, and does all the work of a run of the program. It is given the words, the streams
//! and a runtime, so tests can pass in files and streams that fail. `laws` says what runs of `verify`, `enrol`, `unlock`, `login` and
//! `hall` do to a book.
//!
//! If there are two faults, contracts mostly leave open which of them a command reports. They state a part of it: a missing token, or
//! a log that can't be read, is a fault only after a book was read. What a command asks at a terminal no contract states. Tests check
//! both. A call of a law does nothing at run time: it only gives the proof a fact.
#![tactic(auto)]

mod audit;
mod audit_lines;
mod hall;
mod joined;
pub mod laws;
mod login;
mod printed_log;
mod program;
mod progress;
mod report;
mod sent_codes;
mod service_fault;
mod upgrade;
mod verify;

pub use command_io::terminal::{TerminalInput, TerminalOutput};
pub use program::run;
