//! The commands that read no line of the protocol: `keys` and `code` print, `enrol` and `unlock` change a book.
//!
//! If there are two faults, contracts mostly leave open which of them a command reports. They state a part of it: a missing token is
//! a fault only after a book was read. What a command asks at a terminal no contract states. Tests check both.
#![tactic(auto)]

pub mod code;
pub mod enrol;
pub mod keys;
pub mod moving_factor;
pub mod unlock;
