//! The nonces of a login: those that the words give, or ones that are made of random bytes.
ghost use Rattle.std.specs.Prelude.{◌≡◌, IfOk, IfErr, length};
ghost use Rattle.scram_text.specs.Base64Field.{base64};
ghost use Rattle.command_io.specs.File.{IsFileUnreadOrNoMemory};
ghost use Rattle.commands.specs.Nonces.{AreGivenOrRead, TakesNonce, TakesNonces};
ghost use Rattle.commands.specs.declared.login.nonces.TheConstants.{NONCE_BYTES};

use base64::engine::general_purpose::STANDARD;
use command_io::file::open_file;
use command_io::random::random_bytes;
use command_line::Fault;
use scram_text::NoncePart;
use std::alloc::Global;
use std::fs::Files;
use std::io::Read;

// How many random bytes a nonce is made of.
const NONCE_BYTES: usize = 18;

/// The nonces of a login: the client's own, and the server's part, which comes after it.
#[derive(Drop)]
pub(crate) struct Nonces {
    pub(crate) client: NoncePart,
    pub(crate) server: NoncePart,
}

/// The two nonces of a login. One that is not given is the base64 text of the next 18 bytes of the file at `path`, which is opened only
/// if such a nonce is needed. The client's nonce comes first. Faults: CannotRead and NoMemory.
pub(crate) fn login_nonces<R: Files + AllocGlobal>(
    rt: &R,
    path: &str,
    client: Option<NoncePart>,
    server: Option<NoncePart>,
) -> Result<Nonces, Fault>
    ensures ok { IfOk result (λ nonces. AreGivenOrRead R.File.remaining client server nonces.client nonces.server) }
    ensures err { IfErr result (IsFileUnreadOrNoMemory path.now) }
{
    match (client, server) {
        (Some(client), Some(server)) => Ok(Nonces { client, server }),
        (client, server) => {
            let mut random = open_file(rt, path)?;
            login_nonces_from(rt.alloc(), path, client, server, &mut random)
        }
    }
}

// The two nonces of a login; one that is not given is made from the next random bytes. `path` is that of their file.
fn login_nonces_from<F: Read>(
    alloc: Global,
    path: &str,
    client: Option<NoncePart>,
    server: Option<NoncePart>,
    random: &mut F,
) -> Result<Nonces, Fault>
    ensures ok { IfOk result (λ nonces.
        TakesNonces (F.remaining random.old) client server nonces.client nonces.server (F.remaining random.new)) }
    ensures err { IfErr result (IsFileUnreadOrNoMemory path.now) }
{
    let client = given_or_random(alloc, path, client, random)?;
    let server = given_or_random(alloc, path, server, random)?;
    Ok(Nonces { client, server })
}

// The nonce `given`, or one made from the next random bytes. `path` is that of their file.
fn given_or_random<F: Read>(
    alloc: Global,
    path: &str,
    given: Option<NoncePart>,
    random: &mut F,
) -> Result<NoncePart, Fault>
    ensures ok { IfOk result (λ nonce. TakesNonce (F.remaining random.old) given nonce (F.remaining random.new)) }
    ensures err { IfErr result (IsFileUnreadOrNoMemory path.now) }
{
    match given {
        Some(nonce) => Ok(nonce),
        None => {
            let bytes: [u8; NONCE_BYTES] = random_bytes(alloc, path, random)?;
            nonce_of_bytes(alloc, bytes.as_slice())
        }
    }
}

// The nonce that is made of these NONCE_BYTES bytes: their base64 text (RFC 4648, section 4), which is printable and has no comma.
fn nonce_of_bytes(alloc: Global, bytes: &[u8]) -> Result<NoncePart, Fault>
    requires { length bytes.now ≡ NONCE_BYTES }
    ensures ok { IfOk result (λ nonce. nonce ≡ base64 bytes.now) }
    ensures err { IfErr result (λ fault. fault ≡ Fault.NoMemory) }
{
    let text = STANDARD.encode(alloc, bytes)?;
    let Some(nonce) = NoncePart::new(text.as_bytes()) else {
        unreachable!()
    };
    Ok(nonce)
}
