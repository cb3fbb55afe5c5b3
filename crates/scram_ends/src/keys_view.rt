//! What a server keeps for a name and one mechanism.
use mac_core::ScramKeys;
use scram_text::{PlainName, Salt};

/// What a server keeps for a name and one mechanism: an account's keys, or a decoy. The definitions in `specs/` call it an entry.
#[derive(Drop)]
pub struct KeysView<'a> {
    /// The salt that the server sends.
    pub salt: Salt,

    /// The iteration count that the server sends, at least 1.
    pub count: u32,

    /// The keys, each as long as the mechanism's digests. None makes it a decoy: its name gets a challenge like any other, but no
    /// proof passes.
    pub keys: Option<ScramKeys>,

    /// The other names that the account may act as.
    pub act_as: &'a [PlainName],
}
