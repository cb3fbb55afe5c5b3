//! The keys of a password.
ghost use Rattle.std.specs.Prelude.{◌≡◌, ◌≤◌, length};
ghost use Rattle.mac_core.specs.declared.mechanism.Mechanism.{Mechanism};
ghost use Rattle.c_library.specs.Demands.{IsAnswered};
ghost use Rattle.c_library.specs.Entries.{IsNoMechanism, IsEntryOfPassword, keys_demands};
ghost use Rattle.c_library.specs.Numbers.{mechanism_number};

use crate::entry::{StoredEntry, mechanism_of};
use crate::fault::Fault;
use crate::put::padded;
use mac_core::Mechanism;
use scram_text::{Password, Salt};

/// Makes the entry of a password under a salt of 1 to 64 bytes and an iteration count, which decides how long the call takes.
/// Returns 0, or else, with the entry as before, the first of these that applies: 90 if there is no such mechanism, 65 if the count
/// is 0, 64 for the salt, and 91 if the password is not 1 to 1024 bytes from space to tilde.
#[unsafe(no_mangle)]
pub extern "C" fn scramotp_keys(
    mechanism: u32,
    count: u32,
    salt: &[u8],
    password: &[u8],
    entry: &mut StoredEntry,
) -> u32
    ensures mechanism { IsNoMechanism mechanism → (result ≡ 90) × (entry.new ≡ entry.old) }
    ensures answer { (m : Mechanism) → mechanism ≡ mechanism_number m → IsAnswered (keys_demands count salt.now password.now) result
        ((result ≡ 0) × IsEntryOfPassword m count salt.now password.now entry.new)
        (entry.new ≡ entry.old) }
{
    let Some(of) = mechanism_of(mechanism) else {
        return Fault::Mechanism.number();
    };
    if count == 0 {
        return Fault::Count.number();
    }
    let Some(salt) = Salt::new(salt) else {
        return Fault::Salt.number();
    };
    let Some(password) = Password::new(password) else {
        return Fault::Password.number();
    };
    *entry = entry_of_password(of, count, &salt, &password);
    0
}

// The entry of a password.
fn entry_of_password(
    mechanism: Mechanism,
    count: u32,
    salt: &Salt,
    password: &Password,
) -> StoredEntry
    requires { 1 ≤ count }
    ensures { IsEntryOfPassword mechanism count salt.now password.now result }
{
    let keys = mechanism.scram_keys(password.bytes(), salt.bytes(), count);
    StoredEntry {
        mechanism: number_of(mechanism),
        count,
        salt_len: salt.bytes().len(),
        key_len: keys.stored.len(),
        salt: padded(salt.bytes()),
        stored_key: padded(keys.stored.as_slice()),
        server_key: padded(keys.server.as_slice()),
    }
}

/// The number of a mechanism.
pub(crate) fn number_of(mechanism: Mechanism) -> u32
    ensures { result ≡ mechanism_number mechanism }
{
    match mechanism {
        Mechanism::ScramSha1 => 1,
        Mechanism::ScramSha256 => 256,
    }
}
