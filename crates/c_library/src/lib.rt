//! SCRAM logins at a server and at a client (RFC 5802, RFC 7677), the keys of a password, one-time codes (RFC 4226, RFC 6238), and the
//! lines and the audit of a log, for C.
//!
//! Each exported function is one call of `clib/scramotp.h`, which says how a program in C uses it. No call keeps anything
//! between calls, or fails in a way that its number does not tell: the contract of each says which demands it makes of its arguments, in
//! order, what it does if all are met, and that it else returns the number of the first that is not and changes nothing. Only the audit
//! and the report allocate memory.
#![tactic(auto)]

mod act_as;
mod audit;
mod client;
mod decoy;
mod entry;
mod fault;
mod hotp;
mod keys;
mod line_draft;
mod log_line;
mod names;
mod prepared;
mod put;
mod report;
mod server;
mod text;
mod texts;
mod totp;
mod verifier;
