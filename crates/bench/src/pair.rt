//! The search for two codes in a row, with a HOTP token that looks at 1000 counters.
use otp_core::{Digits, HotpFields, Moment, Reply, Secret, Token};
use std::io;
use std::io::ErrorKind;

fn token(secret: &[u8]) -> Option<Token> {
    let fields = HotpFields {
        secret: Secret::new(secret).ok()?,
        digits: Digits::new(6).ok()?,
        next: 0,
        look_ahead: 0,
        sync_ahead: 999,
        limit: 1,
        failures: 0,
    };
    Token::hotp(fields).ok()
}

/// Searches `count` times for two texts that are no codes, and prints how often the search failed. Each makes 1001 codes.
pub(crate) fn print_failures(rt: &impl Print, secret: &[u8], count: u32) -> io::Result<()> {
    let (Some(token), Some(now)) = (token(secret), Moment::new(0)) else {
        return Err(io::Error::from(ErrorKind::InvalidInput));
    };
    let mut failed = 0u32;
    for _ in 0..count {
        let mut fresh = token.copy();
        if fresh.sync(now, b"", b"") == Reply::Fail {
            failed = failed.saturating_add(1);
        }
    }
    println!(rt; "failed {failed}")
}
