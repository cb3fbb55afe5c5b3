//! The login of RFC 7677's example, section 3, as a log records it.
use mac_core::Mechanism;
use scram_ends::{Judged, KeysView, ServerWait};
use scram_text::Salt;
use std::io;
use std::io::ErrorKind;

const CLIENT_FIRST: &[u8] = b"n,,n=user,r=rOprNGfwEbeRWgbNEkqO";

const SERVER_FIRST: &[u8] =
    b"r=rOprNGfwEbeRWgbNEkqO%hvYDpWUa2RaTCAfuxFIlj)hNlF$k0,s=W22ZaJ0SNY7soEsUEjb6gQ==,i=4096";

const SALT: &[u8; 16] = b"\x5b\x6d\x99\x68\x9d\x12\x35\x8e\xec\xa0\x4b\x14\x12\x36\xfa\x81";

const COUNT: u32 = 4096;

// Whether the account accepts this client-final message.
fn is_accepted(account: &KeysView<'_>, text: &[u8]) -> bool {
    match ServerWait::recorded(Mechanism::ScramSha256, account, CLIENT_FIRST, SERVER_FIRST) {
        Ok(wait) => match wait.judge(text) {
            Judged::Accepted(_) => true,
            Judged::Refused(_) => false,
        },
        Err(_) => false,
    }
}

/// Judges `text` as the client-final message `count` times, and prints how often it was accepted.
pub(crate) fn print_verdicts(rt: &impl Print, text: &[u8], count: u32) -> io::Result<()> {
    let Some(salt) = Salt::new(SALT) else {
        return Err(io::Error::from(ErrorKind::InvalidInput));
    };
    let keys = Mechanism::ScramSha256.scram_keys(b"pencil", SALT, COUNT);
    let account = KeysView {
        salt,
        count: COUNT,
        keys: Some(keys),
        act_as: &[],
    };
    let mut accepted = 0u32;
    for _ in 0..count {
        if is_accepted(&account, text) {
            accepted = accepted.saturating_add(1);
        }
    }
    println!(rt; "accepted {accepted}")
}
