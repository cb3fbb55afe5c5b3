//! Laws of logs of version 1 and of the same logs with numbers, which are logs of version 2.
pub mod logins;
pub mod logs;
