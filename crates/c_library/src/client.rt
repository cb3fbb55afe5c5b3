//! A client's login, in three calls: its first message, its answer to the challenge, and the check of the server's last message.
ghost use Rattle.std.specs.Prelude.{◌≡◌, ◌↔◌, ℕ, List, [], ◌∷◌, length, IfOk, IfErr, IfSome, IfNone};
ghost use Rattle.mac_core.specs.declared.mechanism.Mechanism.{Mechanism};
ghost use Rattle.scram_text.specs.Class.{IsPlainName};
ghost use Rattle.scram_ends.specs.Stages.{Answered};
ghost use Rattle.scram_ends.specs.Login.{IsAuthentic};
ghost use Rattle.scram_ends.specs.Client.{IsAnswer};
ghost use Rattle.c_library.specs.Clients.{asked, client_first_demands, client_final_demands, IsFirstSent, IsFinalSent, shows, signature_in};
ghost use Rattle.c_library.specs.Demands.{IsAnswered};
ghost use Rattle.c_library.specs.Entries.{IsNoMechanism};
ghost use Rattle.c_library.specs.Numbers.{mechanism_number};

use crate::act_as::Bytes;
use crate::entry::{digest_len, mechanism_of};
use crate::fault::Fault;
use crate::put::{padded, put};
use crate::text::{add, add_base64};
use arrayvec::ArrayVec;
use mac_core::Mechanism;
use scram_ends::{Client, ClientAnswer, ClientOne, Limits, MAX_FIRST_LEN, check_server};
use scram_text::{NoncePart, Password, PlainName};

// The greatest length of a client's final message, in bytes.
const MAX_FINAL_LEN: usize = 1592;

// The greatest length of a message before its proof, and of `,p=` and the base64 of 64 bytes after it.
const MAX_PROVED_LEN: usize = 2048 + 3 + 88;

/// A client's login: who logs in, and how.
#[repr(C)]
#[derive(Drop)]
pub struct ClientLogin<'a> {
    /// The name.
    pub name: Bytes<'a>,

    /// The name to act as, or empty for none.
    pub act_as: Bytes<'a>,

    /// The client's part of the nonce.
    pub nonce: Bytes<'a>,

    /// The mechanism: 1 for SCRAM-SHA-1, 256 for SCRAM-SHA-256.
    pub mechanism: u32,

    /// The least iteration count that the client accepts, at least 1.
    pub least: u32,

    /// The greatest iteration count that it accepts.
    pub most: u32,
}

impl ClientLogin<'_> {
    ghost use Rattle.scram_ends.specs.Client.{StandsForStarted};
    ghost use Rattle.c_library.specs.Clients.{client_demands, started_in};
    ghost use Rattle.c_library.specs.Demands.{AreMet, IsFirstFault};
    ghost use Rattle.c_library.specs.Numbers.{fault_number};

    // The client, which has sent its first message.
    fn begin(&self, mechanism: Mechanism) -> Result<ClientOne, Fault>
        ensures met { IfOk result (λ one. AreMet (client_demands self.now)) }
        ensures value { IfOk result (λ one. (client_first : List ℕ)
            × StandsForStarted one (started_in mechanism self.now client_first)) }
        ensures fault { IfErr result (λ fault. IsFirstFault (client_demands self.now) (fault_number fault)) }
    {
        if self.least == 0 {
            return Err(Fault::Count);
        }
        let Some(name) = PlainName::new(self.name.at) else {
            return Err(Fault::Name);
        };
        let Some(act_as) = act_as_of(self.act_as.at) else {
            return Err(Fault::Name);
        };
        let Some(nonce) = NoncePart::new(self.nonce.at) else {
            return Err(Fault::NoncePart);
        };
        let limits = Limits {
            least: self.least,
            most: self.most,
        };
        Ok(Client::begin(mechanism, &name, act_as.as_ref(), &nonce, limits))
    }
}

// The name to act as that is asked for, which is none if the text is empty; or None if it is no name.
fn act_as_of(text: &[u8]) -> Option<Option<PlainName>>
    ensures value { IfSome result (λ name. name ≡ asked text.now) }
    ensures some { IfSome result (λ name. IfSome (asked text.now) IsPlainName) }
    ensures none { IfNone result (IfSome (asked text.now) IsPlainName → ⊥) }
{
    match text {
        [] => Some(None),
        _ => match PlainName::new(text) {
            Some(name) => Some(Some(name)),
            None => None,
        },
    }
}

/// Writes a client's first message to `out`, which is at most 1796 bytes long, and its length to `out_len`.
///
/// Returns 0, or else, with `out` and `out_len` as before, the first of these that applies: 90 if there is no such mechanism, 65 if
/// the least count is 0, 63 if the name is not 1 to 255 bytes from space to tilde, or the name to act as neither that nor empty, 92 if
/// the nonce is not 1 to 256 bytes from `!` to tilde without a comma, and 93 if `out` is shorter than 1796 bytes.
#[unsafe(no_mangle)]
pub extern "C" fn scramotp_client_first(
    client: &ClientLogin<'_>,
    out: &mut [u8],
    out_len: &mut usize,
) -> u32
    ensures mechanism { IsNoMechanism client.now.mechanism → (result ≡ 90) × (out.new ≡ out.old) × (out_len.new ≡ out_len.old) }
    ensures answer { (m : Mechanism) → client.now.mechanism ≡ mechanism_number m
        → IsAnswered (client_first_demands client.now (length out.old)) result
        ((result ≡ 0) × IsFirstSent client.now out.old out.new out_len.new)
        ((out.new ≡ out.old) × (out_len.new ≡ out_len.old)) }
{
    let Some(mechanism) = mechanism_of(client.mechanism) else {
        return Fault::Mechanism.number();
    };
    send_first(mechanism, client, out, out_len)
}

// As `scramotp_client_first`, with this mechanism.
fn send_first(
    mechanism: Mechanism,
    client: &ClientLogin<'_>,
    out: &mut [u8],
    out_len: &mut usize,
) -> u32
    ensures { IsAnswered (client_first_demands client.now (length out.old)) result
        ((result ≡ 0) × IsFirstSent client.now out.old out.new out_len.new)
        ((out.new ≡ out.old) × (out_len.new ≡ out_len.old)) }
{
    let one = match client.begin(mechanism) {
        Ok(one) => one,
        Err(fault) => return fault.number(),
    };
    if out.len() < MAX_FIRST_LEN {
        return Fault::NoRoom.number();
    }
    if !put(one.message().as_slice(), out, out_len) {
        unreachable!()
    }
    0
}

/// Answers a challenge: writes the client's final message with the proof of the password to `out`, its length to `out_len`, and the
/// signature that the server then has to show to `signature`: 20 or 32 bytes, as the mechanism has.
///
/// Returns 0, or else, with all three as before, the first of these that applies: 90, 65, 63 or 92 if the mechanism, the least count,
/// a name or the nonce is not in its form; 91 if the password is not 1 to 1024 bytes from space to tilde; 93 if `out` is shorter than
/// 1592 bytes; and 24 to 28, as a client refuses the challenge.
#[unsafe(no_mangle)]
pub extern "C" fn scramotp_client_final(
    client: &ClientLogin<'_>,
    password: &[u8],
    server_first: &[u8],
    out: &mut [u8],
    out_len: &mut usize,
    signature: &mut [u8; 32],
) -> u32
    ensures mechanism { IsNoMechanism client.now.mechanism
        → (result ≡ 90) × (out.new ≡ out.old) × (out_len.new ≡ out_len.old) × (signature.new ≡ signature.old) }
    ensures answer { (m : Mechanism) → client.now.mechanism ≡ mechanism_number m
        → IsAnswered (client_final_demands client.now password.now server_first.now (length out.old)) result
        ((result ≡ 0) × IsFinalSent m client.now password.now server_first.now out.old out.new out_len.new signature.new)
        ((out.new ≡ out.old) × (out_len.new ≡ out_len.old) × (signature.new ≡ signature.old)) }
{
    let Some(mechanism) = mechanism_of(client.mechanism) else {
        return Fault::Mechanism.number();
    };
    send_final(
        mechanism,
        client,
        password,
        server_first,
        out,
        out_len,
        signature,
    )
}

// As `scramotp_client_final`, with this mechanism.
fn send_final(
    mechanism: Mechanism,
    client: &ClientLogin<'_>,
    password: &[u8],
    server_first: &[u8],
    out: &mut [u8],
    out_len: &mut usize,
    signature: &mut [u8; 32],
) -> u32
    ensures { IsAnswered (client_final_demands client.now password.now server_first.now (length out.old)) result
        ((result ≡ 0) × IsFinalSent mechanism client.now password.now server_first.now out.old out.new out_len.new signature.new)
        ((out.new ≡ out.old) × (out_len.new ≡ out_len.old) × (signature.new ≡ signature.old)) }
{
    let one = match client.begin(mechanism) {
        Ok(one) => one,
        Err(fault) => return fault.number(),
    };
    let Some(password) = Password::new(password) else {
        return Fault::Password.number();
    };
    if out.len() < MAX_FINAL_LEN {
        return Fault::NoRoom.number();
    }
    let answer = match one.answer(&password, server_first) {
        Ok(answer) => answer,
        Err(fault) => return Fault::Client(fault).number(),
    };
    if !put(client_final_of(&answer).as_slice(), out, out_len) {
        unreachable!()
    }
    *signature = padded(answer.expected.as_slice());
    0
}

/// Checks the server's final message: whether it shows this signature, which `scramotp_client_final` has written, and so that the
/// server has the keys of the password.
///
/// Returns 0 exactly if it does, else 90 if there is no such mechanism, and 24, 25, 29 or 30, as a client refuses the message.
#[unsafe(no_mangle)]
pub extern "C" fn scramotp_client_check(
    mechanism: u32,
    signature: &[u8; 32],
    server_final: &[u8],
) -> u32
    ensures mechanism { IsNoMechanism mechanism → result ≡ 90 }
    ensures exactly { (m : Mechanism) → mechanism ≡ mechanism_number m
        → (result ≡ 0) ↔ IsAuthentic server_final.now (signature_in m signature.now) }
    ensures answer { (m : Mechanism) → mechanism ≡ mechanism_number m
        → IsAnswered (shows server_final.now (signature_in m signature.now) ∷ []) result (result ≡ 0) (Unit {0}) }
{
    let Some(mechanism) = mechanism_of(mechanism) else {
        return Fault::Mechanism.number();
    };
    match check_server(server_final, &signature[..digest_len(mechanism)]) {
        Ok(_) => 0,
        Err(fault) => Fault::Client(fault).number(),
    }
}

// The client-final message of a client's answer.
fn client_final_of(answer: &ClientAnswer) -> ArrayVec<u8, MAX_PROVED_LEN>
    requires { (login : Answered) × IsAnswer answer.now login }
    ensures { (login : Answered) → IsAnswer answer.now login → result.items ≡ login.client_final }
{
    let mut text = ArrayVec::new();
    add(&mut text, answer.without_proof.as_slice());
    add(&mut text, b",p=");
    add_base64(&mut text, answer.proof.as_slice());
    text
}
