//! The names in a client-first message.
ghost use Rattle.std.specs.Prelude.{◌≡◌, [], ◌∷◌, unwrap_or};
ghost use Rattle.c_library.specs.Demands.{IsAnswered};
ghost use Rattle.c_library.specs.Logins.{HasNames, taken_up};

use crate::act_as::authzid_of;
use crate::put::padded;
use scram_ends::first_name;

/// The names in a client-first message, each with NULs after it.
#[repr(C)]
#[derive(Drop)]
pub struct Names {
    /// The name of the account.
    pub name: [u8; 256],

    /// The name to act as, empty if none is asked for.
    pub act_as: [u8; 256],
}

/// Reads the names in a client-first message. Returns 0, or else, with `names` as before, 20 to 23, as a server refuses the message.
#[unsafe(no_mangle)]
pub extern "C" fn scramotp_read_names(client_first: &[u8], names: &mut Names) -> u32
    ensures { IsAnswered (taken_up client_first.now ∷ []) result ((result ≡ 0) × HasNames client_first.now names.new)
        (names.new ≡ names.old) }
{
    let name = match first_name(client_first) {
        Ok(name) => name,
        Err(fault) => return u32::from(fault.number()),
    };
    let act_as = match authzid_of(client_first) {
        Some(act_as) => padded(act_as.bytes()),
        None => padded(&[]),
    };
    *names = Names {
        name: padded(name.bytes()),
        act_as,
    };
    0
}
