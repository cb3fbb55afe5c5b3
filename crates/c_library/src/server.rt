//! The server's end of a login, in two calls that keep nothing between them: the caller hands the earlier messages back.
ghost use Rattle.std.specs.Prelude.{◌≡◌, ◌≤◌, ◌<◌, ◌++◌, [], ◌∷◌, length, IfOk, IfErr, ℕ, List, Contains, Some};
ghost use Rattle.std.specs.declared.option.Option.{Option};
ghost use Rattle.mac_core.specs.declared.mechanism.Mechanism.{Mechanism};
ghost use Rattle.scram_text.specs.Messages.{ClientFirstParts, IsClientFirst};
ghost use Rattle.scram_ends.specs.First.{IsChallengeTo};
ghost use Rattle.scram_ends.specs.Opening.{IsTakenUp, IsAllowed};
ghost use Rattle.scram_ends.specs.Verdict.{Due, IsDue, due_of, due_text};
ghost use Rattle.c_library.specs.Demands.{AreMet, IsFirstFault, IsAnswered};
ghost use Rattle.c_library.specs.Entries.{IsNoMechanism, entry_in};
ghost use Rattle.c_library.specs.Logins.{IsChallenged, IsJudged, first_demands, first_fits, final_demands, final_fits, login_of, texts_in};
ghost use Rattle.c_library.specs.Numbers.{mechanism_number, due_number, fault_number};

use crate::act_as::Bytes;
use crate::entry::{StoredEntry, mechanism_of};
use crate::fault::Fault;
use crate::put::put;
use crate::text::{Text, challenge, report};
use mac_core::Mechanism;
use scram_ends::{Judged, Refusal, judge_login, read_first};
use scram_text::NoncePart;

/// Answers a client-first message: writes the challenge to `out`, which is at most 618 bytes long, and its length to `out_len`.
///
/// Returns 0, or else, with `out` and `out_len` as before, the first of these that applies: 90, 65, 64 or 66 if the mechanism, the
/// count, the salt or the length of the keys is not in its form; 92 if the server's part of the nonce is not 1 to 256 bytes from `!`
/// to tilde without a comma; 20 to 23, as a server refuses the message; and 93 if `out` is shorter than the challenge.
#[unsafe(no_mangle)]
pub extern "C" fn scramotp_server_first(
    entry: &StoredEntry,
    client_first: &[u8],
    server_nonce: &[u8],
    out: &mut [u8],
    out_len: &mut usize,
) -> u32
    ensures mechanism { IsNoMechanism entry.now.mechanism → (result ≡ 90) × (out.new ≡ out.old) × (out_len.new ≡ out_len.old) }
    ensures answer { (m : Mechanism) → entry.now.mechanism ≡ mechanism_number m
        → IsAnswered (first_demands m entry.now client_first.now server_nonce.now
        ++ first_fits entry.now client_first.now server_nonce.now (length out.old) ∷ []) result
        ((result ≡ 0) × IsChallenged entry.now client_first.now server_nonce.now out.old out.new out_len.new)
        ((out.new ≡ out.old) × (out_len.new ≡ out_len.old)) }
{
    let Some(mechanism) = mechanism_of(entry.mechanism) else {
        return Fault::Mechanism.number();
    };
    match challenge_of(mechanism, entry, client_first, server_nonce) {
        Ok(text) => {
            if put(text.as_slice(), out, out_len) {
                0
            } else {
                Fault::NoRoom.number()
            }
        }
        Err(fault) => fault.number(),
    }
}

// The challenge to a client-first message.
fn challenge_of(
    mechanism: Mechanism,
    entry: &StoredEntry,
    client_first: &[u8],
    server_nonce: &[u8],
) -> Result<Text, Fault>
    ensures met { IfOk result (λ text. AreMet (first_demands mechanism entry.now client_first.now server_nonce.now)) }
    ensures value { IfOk result (λ text. IsChallengeTo (entry_in entry.now []) client_first.now server_nonce.now text.items) }
    ensures fault { IfErr result (λ fault. IsFirstFault (first_demands mechanism entry.now client_first.now server_nonce.now)
        (fault_number fault)) }
{
    let view = match entry.view(mechanism, &[]) {
        Ok(view) => view,
        Err(fault) => return Err(fault),
    };
    let Some(server_nonce) = NoncePart::new(server_nonce) else {
        return Err(Fault::NoncePart);
    };
    match read_first(client_first) {
        Ok(first) => Ok(challenge(first.nonce, &server_nonce, &view.salt, view.count)),
        Err(fault) => Err(Fault::First(fault)),
    }
}

/// Judges a client-final message by the two messages before it, as they were received and sent: writes the server-final message to
/// `out`, which is at most 46 bytes long, and its length to `out_len`. `act_as` are the other names that the account may act as.
///
/// Returns 0 exactly if the login is valid, or 32 to 37 if it is refused. Else, with `out` and `out_len` as before, it returns the
/// first of these that applies: 90, 65, 64 or 66 if the mechanism, the count, the salt or the length of the keys is not in its form;
/// 20 to 23 or 31 if the two messages open no login of this entry; and 93 if `out` is shorter than the message.
#[unsafe(no_mangle)]
pub extern "C" fn scramotp_server_final(
    entry: &StoredEntry,
    act_as: &[Bytes<'_>],
    client_first: &[u8],
    server_first: &[u8],
    client_final: &[u8],
    out: &mut [u8],
    out_len: &mut usize,
) -> u32
    ensures mechanism { IsNoMechanism entry.now.mechanism → (result ≡ 90) × (out.new ≡ out.old) × (out_len.new ≡ out_len.old) }
    ensures answer { (m : Mechanism) → entry.now.mechanism ≡ mechanism_number m
        → let login = login_of m entry.now (texts_in act_as.now) client_first.now server_first.now in
        IsAnswered (final_demands m entry.now client_first.now server_first.now
        ++ final_fits login client_final.now (length out.old) ∷ []) result
        (IsJudged login client_final.now result out.old out.new out_len.new)
        ((out.new ≡ out.old) × (out_len.new ≡ out_len.old)) }
{
    let Some(mechanism) = mechanism_of(entry.mechanism) else {
        return Fault::Mechanism.number();
    };
    match judged_of(
        mechanism,
        entry,
        act_as,
        client_first,
        server_first,
        client_final,
    ) {
        Ok(judged) => {
            if put(report(&judged).as_slice(), out, out_len) {
                number_of(&judged)
            } else {
                Fault::NoRoom.number()
            }
        }
        Err(fault) => fault.number(),
    }
}

// The verdict on a client-final message, with the server's signature if it accepts.
fn judged_of(
    mechanism: Mechanism,
    entry: &StoredEntry,
    act_as: &[Bytes<'_>],
    client_first: &[u8],
    server_first: &[u8],
    client_final: &[u8],
) -> Result<Judged, Fault>
    ensures met { IfOk result (λ judged. AreMet (final_demands mechanism entry.now client_first.now server_first.now)) }
    ensures due { IfOk result (λ judged. IsDue (login_of mechanism entry.now (texts_in act_as.now) client_first.now server_first.now)
        client_final.now (due_of judged)) }
    ensures fault { IfErr result (λ fault. IsFirstFault (final_demands mechanism entry.now client_first.now server_first.now)
        (fault_number fault)) }
{
    if let Err(fault) = entry.check(mechanism) {
        return Err(fault);
    }
    let parts = entry.parts(mechanism, act_as);
    match judge_login(&parts, client_first, server_first, client_final) {
        Ok(judged) => Ok(judged),
        Err(fault) => Err(Fault::Recorded(fault)),
    }
}

/// The number of a verdict: 0 accepts, 32 to 37 refuse.
pub(crate) fn number_of(judged: &Judged) -> u32
    ensures { result ≡ due_number (due_of judged.now) }
{
    match judged {
        Judged::Accepted(_) => 0,
        Judged::Refused(refusal) => match refusal {
            Refusal::InvalidEncoding => 32,
            Refusal::ExtensionsNotSupported => 33,
            Refusal::OtherNonce => 34,
            Refusal::Channel => 35,
            Refusal::InvalidProof => 36,
            Refusal::NotAuthorised => 37,
        },
    }
}
