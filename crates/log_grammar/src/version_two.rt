//! Laws of logs of version 2, in which each line has the number of its session.
pub mod by_sessions;
pub mod lines;
pub mod logins;
pub mod logs;
pub mod reasons;
pub mod replies;
pub mod sequences;
