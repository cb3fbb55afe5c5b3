//! The server's end of a login, with keys that are prepared once: the states of the hash function after the padded keys.
ghost use Rattle.std.specs.Prelude.{◌≡◌, ◌≤◌, ◌↔◌, ◌++◌, [], ◌∷◌, length, take, IfOk, IfErr, IsTrue};
ghost use Rattle.std.specs.declared.option.Option.{Option};
ghost use Rattle.mac_core.specs.declared.mechanism.Mechanism.{Mechanism};
ghost use Rattle.scram_ends.specs.Entry.{Keys};
ghost use Rattle.scram_ends.specs.Verdict.{IsDue, due_of};
ghost use Rattle.c_library.specs.Demands.{AreMet, IsFirstFault, IsAnswered};
ghost use Rattle.c_library.specs.Entries.{IsNoMechanism, entry_demands, keys_in};
ghost use Rattle.c_library.specs.Logins.{IsJudged, final_demands, final_fits, login_of, texts_in};
ghost use Rattle.c_library.specs.Numbers.{mechanism_number, fault_number};
ghost use Rattle.c_library.specs.Prepared.{ArePreparedFor};
ghost use Rattle.c_library.specs.inner.Parts.{ArePlain};
ghost use Rattle.c_library.specs.inner.Prepared.{PreparedStand, SignsFor};

use crate::act_as::Bytes;
use crate::entry::{StoredEntry, mechanism_of};
use crate::fault::Fault;
use crate::put::put;
use crate::server::number_of;
use crate::text::report;
use crate::texts::Texts;
use hmac_midstate::{PreparedKeys, prepare, short_digest, signatures};
use mac_core::{Mechanism, Tag};
use scram_ends::{AuthMessage, EntryParts, Judged, KeyBytes, Signatures, SigningKeys, judge_login};

/// Prepares the keys of an entry, which saves four compressions of each of its logins, of usually thirteen. Prepare them anew when the
/// entry changes, and keep them as secret as the keys: they serve as well.
///
/// Returns 0, or else, with `prepared` as before, the first of these that applies: 90, 65, 64 or 66 if the mechanism, the count, the
/// salt or the length of the keys is not in its form.
#[unsafe(no_mangle)]
pub extern "C" fn scramotp_prepare(entry: &StoredEntry, prepared: &mut PreparedKeys) -> u32
    ensures mechanism { IsNoMechanism entry.now.mechanism → (result ≡ 90) × (prepared.new ≡ prepared.old) }
    ensures answer { (m : Mechanism) → entry.now.mechanism ≡ mechanism_number m → IsAnswered (entry_demands m entry.now) result
        ((result ≡ 0) × ArePreparedFor m prepared.new entry.now)
        (prepared.new ≡ prepared.old) }
{
    let Some(mechanism) = mechanism_of(entry.mechanism) else {
        return Fault::Mechanism.number();
    };
    match prepared_of(mechanism, entry) {
        Ok(keys) => {
            *prepared = keys;
            0
        }
        Err(fault) => fault.number(),
    }
}

// The keys of the entry, prepared.
fn prepared_of(mechanism: Mechanism, entry: &StoredEntry) -> Result<PreparedKeys, Fault>
    ensures met { IfOk result (λ keys. AreMet (entry_demands mechanism entry.now)) }
    ensures value { IfOk result (λ keys. ArePreparedFor mechanism keys entry.now) }
    ensures fault { IfErr result (λ fault. IsFirstFault (entry_demands mechanism entry.now) (fault_number fault)) }
{
    if let Err(fault) = entry.check(mechanism) {
        return Err(fault);
    }
    Ok(PreparedKeys {
        stored: prepare(mechanism, &entry.stored_key[..entry.key_len]),
        server: prepare(mechanism, &entry.server_key[..entry.key_len]),
    })
}

// Prepared keys that sign, and StoredKey, with which a client's key is compared.
#[derive(Drop)]
pub(crate) struct PreparedSigning<'a> {
    pub(crate) prepared: &'a PreparedKeys,
    pub(crate) stored: &'a [u8],
}

impl<'a> SigningKeys for PreparedSigning<'a> {
    ghost IsFor = { λ signing mechanism keys. SignsFor signing mechanism keys };

    fn signatures(&self, mechanism: Mechanism, message: &AuthMessage<'_>) -> Signatures {
        let (client, server) = signatures(
            mechanism,
            self.prepared,
            message.bare,
            message.server_first,
            message.without_proof,
        );
        Signatures { client, server }
    }

    fn is_stored(&self, mechanism: Mechanism, client_key: &Tag) -> bool {
        are_same(
            short_digest(mechanism, client_key.as_slice()).as_slice(),
            self.stored,
        )
    }
}

// Whether the bytes are the same. If there are as many of both, the steps are the same whichever byte differs.
fn are_same(one: &[u8], other: &[u8]) -> bool
    ensures { IsTrue result ↔ (one.now ≡ other.now) }
{
    if one.len() != other.len() {
        return false;
    }
    let mut same = true;
    for i in 0..one.len() {
        same &= one[i] == other[i];
    }
    same
}

// Prepared keys in place of these, if there are any.
fn prepared_in_place<'a>(
    keys: Option<KeyBytes<'a>>,
    prepared: &'a PreparedKeys,
) -> Option<PreparedSigning<'a>>
    ensures { (m : Mechanism) (held : Option Keys) → ArePlain keys.entry held → PreparedStand m prepared.now held result }
{
    match keys {
        Some(bytes) => Some(PreparedSigning {
            prepared,
            stored: bytes.stored,
        }),
        None => None,
    }
}

// What a server sees of the entry, with prepared keys in place of its keys.
fn prepared_parts<'a>(
    mechanism: Mechanism,
    entry: &'a StoredEntry,
    prepared: &'a PreparedKeys,
    act_as: &'a [Bytes<'a>],
) -> EntryParts<'a, PreparedSigning<'a>, Texts<'a>>
    requires { AreMet (entry_demands mechanism entry.now) }
    ensures mechanism { result.mechanism ≡ mechanism }
    ensures salt { result.salt.now ≡ take entry.now.salt_len entry.now.salt }
    ensures count { result.count ≡ entry.now.count }
    ensures keys { (m : Mechanism) → PreparedStand m prepared.now (keys_in entry.now) result.keys }
    ensures others { result.others.list.now ≡ act_as.now }
{
    let parts = entry.parts(mechanism, act_as);
    EntryParts {
        mechanism,
        salt: parts.salt,
        count: parts.count,
        keys: prepared_in_place(parts.keys, prepared),
        others: parts.others,
    }
}

/// Judges a client-final message as `scramotp_server_final` does, with the keys of the entry that `scramotp_prepare` has prepared.
///
/// It returns and writes what `scramotp_server_final` would. With other prepared keys than those of the entry the verdict is another.
#[unsafe(no_mangle)]
pub extern "C" fn scramotp_server_final_prepared(
    entry: &StoredEntry,
    prepared: &PreparedKeys,
    act_as: &[Bytes<'_>],
    client_first: &[u8],
    server_first: &[u8],
    client_final: &[u8],
    out: &mut [u8],
    out_len: &mut usize,
) -> u32
    ensures mechanism { IsNoMechanism entry.now.mechanism → (result ≡ 90) × (out.new ≡ out.old) × (out_len.new ≡ out_len.old) }
    ensures answer { (m : Mechanism) → entry.now.mechanism ≡ mechanism_number m → ArePreparedFor m prepared.now entry.now
        → let login = login_of m entry.now (texts_in act_as.now) client_first.now server_first.now in
        IsAnswered (final_demands m entry.now client_first.now server_first.now
        ++ final_fits login client_final.now (length out.old) ∷ []) result
        (IsJudged login client_final.now result out.old out.new out_len.new)
        ((out.new ≡ out.old) × (out_len.new ≡ out_len.old)) }
{
    let Some(mechanism) = mechanism_of(entry.mechanism) else {
        return Fault::Mechanism.number();
    };
    match judged_by_prepared(
        mechanism,
        entry,
        prepared,
        act_as,
        client_first,
        server_first,
        client_final,
    ) {
        Ok(judged) => {
            if put(report(&judged).as_slice(), out, out_len) {
                number_of(&judged)
            } else {
                Fault::NoRoom.number()
            }
        }
        Err(fault) => fault.number(),
    }
}

// The verdict on a client-final message, with the server's signature if it accepts.
fn judged_by_prepared(
    mechanism: Mechanism,
    entry: &StoredEntry,
    prepared: &PreparedKeys,
    act_as: &[Bytes<'_>],
    client_first: &[u8],
    server_first: &[u8],
    client_final: &[u8],
) -> Result<Judged, Fault>
    ensures met { IfOk result (λ judged. AreMet (final_demands mechanism entry.now client_first.now server_first.now)) }
    ensures due { IfOk result (λ judged. ArePreparedFor mechanism prepared.now entry.now
        → IsDue (login_of mechanism entry.now (texts_in act_as.now) client_first.now server_first.now) client_final.now (due_of judged)) }
    ensures fault { IfErr result (λ fault. IsFirstFault (final_demands mechanism entry.now client_first.now server_first.now)
        (fault_number fault)) }
{
    if let Err(fault) = entry.check(mechanism) {
        return Err(fault);
    }
    let parts = prepared_parts(mechanism, entry, prepared, act_as);
    match judge_login(&parts, client_first, server_first, client_final) {
        Ok(judged) => Ok(judged),
        Err(fault) => Err(Fault::Recorded(fault)),
    }
}
