//! Laws of logs of version 1.
pub mod by_sessions;
pub mod examples;
pub mod logins;
pub mod outcomes;
pub mod reasons;
pub mod replies;
pub mod sequences;
