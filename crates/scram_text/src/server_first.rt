//! The server's first message (RFC 5802, section 7):
//!
//! ```text
//! server-first-message = [reserved-mext ","] nonce "," salt "," iteration-count ["," extensions]
//! ```
//!
//! For example: `r=abcdef,s=QSXCR+Q6sek8bf92,i=4096`.
ghost use Rattle.std.specs.Prelude.{◌≤◌, ◌+◌, ◌↔◌, length, IsTrue, IfOk, IfErr, IsOkAnd};
ghost use Rattle.scram_text.specs.Limits.{max_message_len};
ghost use Rattle.scram_text.specs.Messages.{ServerFirstParts, server_first_text, IsServerFirst};
ghost use Rattle.scram_text.specs.Draft.{IsDraftOf};
ghost use Rattle.scram_text.specs.Written.{server_first_of, CanBeServerFirst, IsMessageWritten};
ghost use Rattle.scram_text.specs.Faults.{IsServerFirstFault};
ghost use Rattle.scram_text.specs.Shown.{ShowsServerFirst};
ghost use Rattle.scram_text.specs.inner.Pieces.{IsCutServerFirst};

use crate::draft::{MAX_SHORT_BASE64_LEN, MessageDraft};
use crate::fault::{TextFault, TextWhy, WriteFault};
use crate::values::Salt;
use crate::{MAX_NONCE_LEN, MAX_SALT_LEN, class, cut, field};
use std::alloc::Allocator;

/// A server-first message that was read. Its slices are parts of the message.
#[derive(Drop)]
pub struct ServerFirst<'a> {
    /// Whether the message begins with `m=` or an extension is named `m`: if so, the login has to fail.
    pub mandatory: bool,

    /// The nonce, 1 to 512 printable characters.
    pub nonce: &'a [u8],

    /// The salt that the client derives its keys with, 1 to 64 bytes.
    pub salt: Salt,

    /// The iteration count, 1 to 4294967295.
    pub count: u32,

    /// The extensions: attr-vals with commas between them, or empty.
    pub extensions: &'a [u8],
}

/// Reads a server-first message (RFC 5802, section 7). It does not allocate. Errors: the first of these that applies:
/// - 1 TooLong or 2 NotText for the whole text;
/// - 3 Missing if it has too few parts;
/// - the fault of the first part from the left that does not have its form: 6 Mandatory, 8 Nonce, 9 Salt, 10 Count or 12
///   Extension.
pub fn read_server_first(message: &[u8]) -> Result<ServerFirst<'_>, TextFault>
    // The text is a message with the parts that are returned.
    ensures found { IfOk result (λ m. (p : ServerFirstParts) × IsServerFirst message.now p
        × ShowsServerFirst m p) }
    // If the text is a message, its parts are returned.
    ensures every { (p : ServerFirstParts) → IsServerFirst message.now p
        → IsOkAnd result (λ m. ShowsServerFirst m p) }
    ensures fault { IfErr result (λ f. IsServerFirstFault message.now f) }
{
    read_parts(message)
}

// As the public reader, but without `every`: it follows from `found` and `fault`, since a text has one list of parts.
fn read_parts(message: &[u8]) -> Result<ServerFirst<'_>, TextFault>
    ensures found { IfOk result (λ m. (p : ServerFirstParts) × IsServerFirst message.now p
        × ShowsServerFirst m p) }
    ensures fault { IfErr result (λ f. IsServerFirstFault message.now f) }
{
    let pieces = pieces_of(message)?;
    let Some(nonce) = field::nonce_of(pieces.nonce, MAX_NONCE_LEN) else {
        return Err(TextFault {
            part: pieces.index,
            why: TextWhy::Nonce,
        });
    };
    let Some(salt) = field::salt_of(pieces.salt) else {
        return Err(TextFault {
            part: pieces.index + 1,
            why: TextWhy::Salt,
        });
    };
    let Some(count) = field::count_of(pieces.count) else {
        return Err(TextFault {
            part: pieces.index + 2,
            why: TextWhy::Count,
        });
    };
    let extensions = cut::extensions_of(pieces.rest, pieces.index + 3)?;
    Ok(ServerFirst {
        mandatory: pieces.has_mext | extensions.mandatory,
        nonce,
        salt,
        count,
        extensions: extensions.text,
    })
}

// The parts after the place of reserved-mext. The first of them has this index in the message.
#[derive(Drop)]
struct Pieces<'a> {
    has_mext: bool,
    index: usize,
    nonce: &'a [u8],
    salt: &'a [u8],
    count: &'a [u8],
    rest: Option<&'a [u8]>,
}

// Cuts a message into these parts. Errors: 1 TooLong, 2 NotText, 3 Missing if it has too few parts, or 6 Mandatory if it begins
// with `m=` and the value after that is empty.
fn pieces_of(message: &[u8]) -> Result<Pieces<'_>, TextFault>
    ensures cut { IfOk result (λ pieces. IsCutServerFirst message.now pieces) }
    ensures fault { IfErr result (λ f. IsServerFirstFault message.now f) }
{
    let parts = cut::checked_part_count(message)?;
    if parts < cut::least_part_count(message, 3) {
        return Err(TextFault {
            part: parts,
            why: TextWhy::Missing,
        });
    }
    let after = cut::mext_of(message, 0)?;
    let (nonce, salt, rest) = cut::cut_two(after.rest);
    let Some(rest) = rest else { unreachable!() };
    let (count, rest) = cut::cut(rest);
    Ok(Pieces {
        has_mext: after.has_mext,
        index: after.index,
        nonce,
        salt,
        count,
        rest,
    })
}

/// Appends a server-first message (RFC 5802, section 7) to `out`: the nonce of 1 to 512 printable characters, the salt, the count,
/// which is at least 1, and the extensions, which are attr-vals with commas between them, or empty. Errors: 16 Unwritable if an
/// argument is outside its class, else 17 OverLimit if the message would have more than 2048 bytes, else 99 NoMemory, only if `out`
/// had no room reserved for the message. After an error `out` is unchanged.
pub fn write_server_first<A: Allocator>(
    nonce: &[u8],
    salt: &Salt,
    count: u32,
    extensions: &[u8],
    out: &mut Vec<u8, A>,
) -> Result<(), WriteFault>
    ensures { IsMessageWritten result out.old out.new server_first_text IsServerFirst
        (server_first_of nonce.now salt.now count extensions.now)
        (CanBeServerFirst nonce.now salt.now count extensions.now) }
{
    let salt = salt.bytes();
    if !is_writable(nonce, salt, count, extensions) {
        return Err(WriteFault::Unwritable);
    }
    draft_of(nonce, salt, count, extensions).append_to(out)
}

// Whether each argument is in its class.
fn is_writable(nonce: &[u8], salt: &[u8], count: u32, extensions: &[u8]) -> bool
    ensures { IsTrue result ↔ CanBeServerFirst nonce.now salt.now count extensions.now }
{
    class::is_nonce(nonce, MAX_NONCE_LEN)
        && field::is_field(salt, MAX_SALT_LEN)
        && field::is_count(count)
        && cut::are_extensions(extensions)
}

// The whole message.
fn draft_of(nonce: &[u8], salt: &[u8], count: u32, extensions: &[u8]) -> MessageDraft
    requires { CanBeServerFirst nonce.now salt.now count extensions.now }
    ensures draft { IsDraftOf result (server_first_text (server_first_of nonce.now salt.now count extensions.now)) }
    ensures is_message { let p = server_first_of nonce.now salt.now count extensions.now in
        length (server_first_text p) ≤ max_message_len → IsServerFirst (server_first_text p) p }
{
    let mut draft = MessageDraft::new();
    draft.add(b"r=");
    draft.add(nonce);
    draft.add(b",s=");
    draft.add_base64::<MAX_SHORT_BASE64_LEN>(salt);
    draft.add(b",i=");
    draft.add_decimal(u64::from(count));
    draft.add_extensions(extensions);
    draft
}
