//! The exit statuses of the program.

/// Done, passed or clean.
pub const DONE: u8 = 0;

/// Refused, or at fault.
pub const REFUSED: u8 = 1;

/// Wrong usage, or a value or password that is not in its form.
pub const USAGE: u8 = 2;

/// A file, a socket, the input or output failed, or memory ran out.
pub const FAILED: u8 = 3;
