//! A client that takes no memory: its first message is in fixed buffers.
ghost use Rattle.std.specs.Prelude.{◌≡◌, ◌≤◌, ◌+◌, ℕ, List, ◌++◌, length, codes, option_map};
ghost use Rattle.std.specs.Option.{option_copied};
ghost use Rattle.scram_text.specs.Name.{byte_spelling, name_spelling};
ghost use Rattle.scram_text.specs.Parts.{authzid_text};
ghost use Rattle.scram_ends.specs.Stages.{Started, started_login};
ghost use Rattle.scram_ends.specs.Client.{StandsForStarted};

use crate::bytes::{add, concatenated};
use crate::client::start::law_of_names;
use crate::client::{Client, ClientOne, Limits};
use crate::lengths::{MAX_BARE_LEN, MAX_FIRST_LEN, MAX_HEADER_LEN, MAX_SPELLING_LEN};
use arrayvec::ArrayVec;
use mac_core::{Mechanism, copy_of};
use scram_text::{NoncePart, PlainName};

impl Client {
    /// As `start`, but it takes no memory and can't fail: `ClientOne::message` has the message. The same arguments give the same
    /// client, so that a program need not keep one.
    pub fn begin(
        mechanism: Mechanism,
        name: &PlainName,
        authzid: Option<&PlainName>,
        nonce: &NoncePart,
        limits: Limits,
    ) -> ClientOne
        ensures { (client_first : List ℕ) × StandsForStarted result
            (started_login mechanism limits name.now (option_copied authzid.entry) nonce.now client_first) }
    {
        law_of_names(name, authzid, nonce);
        ClientOne {
            mechanism,
            limits,
            bare: bare_of(name, nonce),
            header: header_of(authzid),
            nonce: copy_of(nonce.bytes()),
        }
    }
}

impl ClientOne {
    /// The client-first message.
    pub fn message(&self) -> ArrayVec<u8, MAX_FIRST_LEN>
        ensures { (l : Started) → StandsForStarted self.now l → result.items ≡ l.client_first }
    {
        concatenated(self.header.as_slice(), self.bare.as_slice())
    }
}

// The gs2-header with this name to act as.
fn header_of(authzid: Option<&PlainName>) -> ArrayVec<u8, MAX_HEADER_LEN>
    ensures { result.items ≡ (codes "n," ++ authzid_text (option_map name_spelling (option_copied authzid.entry))) ++ codes "," }
{
    let mut text = ArrayVec::new();
    add(&mut text, b"n,");
    if let Some(name) = authzid {
        add(&mut text, b"a=");
        add(&mut text, spelling(name).as_slice());
    }
    add(&mut text, b",");
    text
}

// The bare message with this name and this nonce.
fn bare_of(name: &PlainName, nonce: &NoncePart) -> ArrayVec<u8, MAX_BARE_LEN>
    ensures { result.items ≡ ((codes "n=" ++ name_spelling name.now) ++ codes ",r=") ++ nonce.now }
{
    let mut text = ArrayVec::new();
    add(&mut text, b"n=");
    add(&mut text, spelling(name).as_slice());
    add(&mut text, b",r=");
    add(&mut text, nonce.bytes());
    text
}

// The spelling of a name.
fn spelling(name: &PlainName) -> ArrayVec<u8, MAX_SPELLING_LEN>
    ensures { result.items ≡ name_spelling name.now }
{
    let mut text = ArrayVec::new();
    for byte in name.bytes() {
        add_escaped(&mut text, *byte);
    }
    text
}

// Adds a byte of a name: a comma as `=2C`, an equals sign as `=3D`, any other as it is.
fn add_escaped(text: &mut ArrayVec<u8, MAX_SPELLING_LEN>, byte: u8)
    requires { length text.old.items + 3 ≤ MAX_SPELLING_LEN }
    ensures { text.new.items ≡ text.old.items ++ byte_spelling byte }
{
    match byte {
        b',' => add(text, b"=2C"),
        b'=' => add(text, b"=3D"),
        _ => add(text, &[byte]),
    }
}
