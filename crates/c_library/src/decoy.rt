//! What a server shows for a name that has no account: a salt that is the same each time, so that no client can tell.
ghost use Rattle.std.specs.Prelude.{◌≡◌};
ghost use Rattle.mac_core.specs.declared.mechanism.Mechanism.{Mechanism};
ghost use Rattle.c_library.specs.Demands.{IsAnswered};
ghost use Rattle.c_library.specs.Entries.{IsNoMechanism, IsDecoyOf, decoy_demands, decoy_salt};
ghost use Rattle.c_library.specs.Numbers.{mechanism_number};

use crate::entry::{StoredEntry, mechanism_of};
use crate::fault::Fault;
use crate::keys::number_of;
use crate::put::padded;
use mac_core::{HSha256, Mac, Mechanism};
use scram_text::{PlainName, Salt};

// The length in bytes of a decoy's salt. If an account's had another, a client could tell the two apart.
const DECOY_SALT_LEN: usize = 16;

/// Makes the decoy of a name that has no account: an entry without keys, whose salt has 16 bytes and follows from the secret decoy
/// key, the mechanism and the name. Returns 0, or else, with the entry as before, the first of these that applies: 90 if there is no
/// such mechanism, 65 if the count is 0, and 63 if the name is not 1 to 255 bytes from space to tilde.
#[unsafe(no_mangle)]
pub extern "C" fn scramotp_decoy(
    key: &[u8; 32],
    mechanism: u32,
    count: u32,
    name: &[u8],
    entry: &mut StoredEntry,
) -> u32
    ensures mechanism { IsNoMechanism mechanism → (result ≡ 90) × (entry.new ≡ entry.old) }
    ensures answer { (m : Mechanism) → mechanism ≡ mechanism_number m → IsAnswered (decoy_demands count name.now) result
        ((result ≡ 0) × IsDecoyOf key.now m count name.now entry.new)
        (entry.new ≡ entry.old) }
{
    let Some(of) = mechanism_of(mechanism) else {
        return Fault::Mechanism.number();
    };
    if count == 0 {
        return Fault::Count.number();
    }
    let Some(name) = PlainName::new(name) else {
        return Fault::Name.number();
    };
    let salt = decoy_salt(key, of, &name);
    *entry = StoredEntry {
        mechanism: number_of(of),
        count,
        salt_len: salt.bytes().len(),
        key_len: 0,
        salt: padded(salt.bytes()),
        stored_key: padded(&[]),
        server_key: padded(&[]),
    };
    0
}

// The salt of a name's decoy.
fn decoy_salt(key: &[u8; 32], mechanism: Mechanism, name: &PlainName) -> Salt
    ensures { result ≡ decoy_salt key.now mechanism name.now }
{
    let mut mac = Mac::<HSha256>::new(key);
    mac.add(mechanism.name().as_bytes());
    mac.add(&[0]);
    mac.add(name.bytes());
    let tag = mac.done();
    let Some(salt) = Salt::new(&tag.as_slice()[..DECOY_SALT_LEN]) else {
        unreachable!()
    };
    salt
}
