//! The client's first message (RFC 5802, section 7):
//!
//! ```text
//! gs2-header = gs2-cbind-flag "," [ authzid ] ","
//! client-first-message-bare = [reserved-mext ","] username "," nonce ["," extensions]
//! client-first-message = gs2-header client-first-message-bare
//! ```
//!
//! For example: `n,,n=user,r=abc`.
ghost use Rattle.std.specs.Prelude.{◌≡◌, ◌≤◌, ◌+◌, [], length, IfOk, IfErr, IfSome, IsTrue, IsOkAnd, false};
ghost use Rattle.std.specs.Prelude.{MatchOption};
ghost use Rattle.std.specs.Option.{option_copied};
ghost use Rattle.scram_text.specs.Limits.{max_message_len};
ghost use Rattle.scram_text.specs.inner.Pieces.{most_parts};
ghost use Rattle.scram_text.specs.Name.{IsSaslName};
ghost use Rattle.scram_text.specs.Parts.{parts, is_flag, authzid_text};
ghost use Rattle.scram_text.specs.Messages.{ClientFirstParts, gs2_header, client_first_text, IsClientFirst};
ghost use Rattle.scram_text.specs.Faults.{IsClientFirstFault, IsAuthzid, fault, places_with_mext};
ghost use Rattle.scram_text.specs.Shown.{ShowsClientFirst, flag_text};
ghost use Rattle.scram_text.specs.Draft.{IsDraftOf};
ghost use Rattle.scram_text.specs.Written.{client_first_of, CanBeClientFirst, IsMessageWritten};
ghost use Rattle.scram_text.specs.inner.Pieces.{IsCutClientFirst, IsCutBare, IsBare, ShowsBare, IsBareMisfit};

use crate::draft::MessageDraft;
use crate::fault::{TextFault, TextWhy, WriteFault};
use crate::name::{PlainName, SaslText};
use crate::values::NoncePart;
use crate::{MAX_NONCE_PART_LEN, class, cut, field};
use std::alloc::Allocator;

/// The flag of a gs2-header: whether the client binds a channel.
#[derive(Clone, Copy, Debug, PartialEq, Eq)]
pub enum Flag<'a> {
    /// `n`: the client does not support channel binding.
    NoBinding,

    /// `y`: the client supports channel binding, but thinks that the server does not.
    NotOffered,

    /// `p=` and the name of the channel binding that the client uses: one or more letters, digits, `.` or `-`.
    Binding(&'a [u8]),
}

/// A client-first message that was read. Its slices are parts of the message.
#[derive(Drop)]
pub struct ClientFirst<'a> {
    /// The gs2-header with its last comma.
    pub header: &'a [u8],

    /// The text after the header: client-first-message-bare.
    pub bare: &'a [u8],

    /// The gs2-cbind-flag: whether the client binds a channel.
    pub flag: Flag<'a>,

    /// The name to act as (authzid), of `a=`, if there is one.
    pub authzid: Option<SaslText<'a>>,

    /// Whether the bare message begins with `m=` or an extension is named `m`: if so, the login has to fail.
    pub mandatory: bool,

    /// The name of `n=`.
    pub name: SaslText<'a>,

    /// The nonce, 1 to 256 printable characters.
    pub nonce: &'a [u8],

    /// The extensions: attr-vals with commas between them, or empty.
    pub extensions: &'a [u8],
}

/// Reads a client-first message (RFC 5802, section 7). It does not allocate. Errors: the first of these that applies:
/// - 1 TooLong or 2 NotText for the whole text;
/// - 3 Missing if it has too few parts;
/// - the fault of the first part from the left that does not have its form: 4 Flag, 5 Authzid, 6 Mandatory, 7 Name, 8 Nonce or 12
///   Extension.
pub fn read_client_first(message: &[u8]) -> Result<ClientFirst<'_>, TextFault>
    // The text is a message with the parts that are returned.
    ensures found { IfOk result (λ m. (p : ClientFirstParts) × IsClientFirst message.now p
        × ShowsClientFirst m p) }
    // If the text is a message, its parts are returned.
    ensures every { (p : ClientFirstParts) → IsClientFirst message.now p
        → IsOkAnd result (λ m. ShowsClientFirst m p) }
    ensures fault { IfErr result (λ f. IsClientFirstFault message.now f) }
{
    read_parts(message)
}

// As the public reader, but without `every`: it follows from `found` and `fault`, since a text has one list of parts.
fn read_parts(message: &[u8]) -> Result<ClientFirst<'_>, TextFault>
    ensures found { IfOk result (λ m. (p : ClientFirstParts) × IsClientFirst message.now p
        × ShowsClientFirst m p) }
    ensures fault { IfErr result (λ f. IsClientFirstFault message.now f) }
{
    let pieces = pieces_of(message)?;
    let Some(flag) = flag_of(pieces.flag) else {
        return Err(TextFault {
            part: 0,
            why: TextWhy::Flag,
        });
    };
    let authzid = authzid_of(pieces.authzid)?;
    let bare = read_bare(pieces.bare)?;
    Ok(ClientFirst {
        header: pieces.header,
        bare: pieces.bare,
        flag,
        authzid,
        mandatory: bare.mandatory,
        name: bare.name,
        nonce: bare.nonce,
        extensions: bare.extensions,
    })
}

// The parts of a text that has at least four, or at least five if the bare message begins with `m=`.
#[derive(Drop)]
struct Pieces<'a> {
    header: &'a [u8],
    flag: &'a [u8],
    authzid: &'a [u8],
    bare: &'a [u8],
}

// Cuts a message into these parts. Errors: 1 TooLong, 2 NotText, or 3 Missing if it has too few parts.
fn pieces_of(message: &[u8]) -> Result<Pieces<'_>, TextFault>
    ensures cut { IfOk result (λ pieces. IsCutClientFirst message.now pieces) }
    ensures fault { IfErr result (λ f. IsClientFirstFault message.now f) }
{
    let parts = cut::checked_part_count(message)?;
    if parts < 3 {
        return Err(TextFault {
            part: parts,
            why: TextWhy::Missing,
        });
    }
    let (flag, authzid, rest) = cut::cut_two(message);
    let Some(bare) = rest else { unreachable!() };
    if parts < cut::least_part_count(bare, 4) {
        return Err(TextFault {
            part: parts,
            why: TextWhy::Missing,
        });
    }
    Ok(Pieces {
        header: &message[..flag.len() + authzid.len() + 2],
        flag,
        authzid,
        bare,
    })
}

// gs2-cbind-flag
fn flag_of(part: &[u8]) -> Option<Flag<'_>>
    ensures spelled { IfSome result (λ flag. flag_text flag ≡ part.now) }
    ensures class { MatchOption result (is_flag part.now ≡ false) (λ _. IsTrue (is_flag part.now)) }
{
    match part {
        b"n" => Some(Flag::NoBinding),
        b"y" => Some(Flag::NotOffered),
        [b'p', b'=', name @ ..] if class::is_cb_name(name) => Some(Flag::Binding(name)),
        _ => None,
    }
}

// [ authzid ]: nothing, or `a=` and a saslname.
fn authzid_of(part: &[u8]) -> Result<Option<SaslText<'_>>, TextFault>
    ensures spelled { IfOk result (λ authzid. part.now ≡ authzid_text authzid) }
    ensures class { IfOk result (λ authzid. IfSome authzid IsSaslName) }
    ensures fault { IfErr result (λ f. (IsAuthzid part.now → ⊥) × (f ≡ fault 1 TextWhy.Authzid)) }
{
    if part.is_empty() {
        return Ok(None);
    }
    match field::name_of(part, b'a') {
        Some(name) => Ok(Some(name)),
        None => Err(TextFault {
            part: 1,
            why: TextWhy::Authzid,
        }),
    }
}

// The parts of client-first-message-bare as they were read.
#[derive(Drop)]
struct Bare<'a> {
    mandatory: bool,
    name: SaslText<'a>,
    nonce: &'a [u8],
    extensions: &'a [u8],
}

// Reads client-first-message-bare, whose first part has the index 2 in the message. Errors: the fault of the first part from the
// left that does not have its form: 6 Mandatory, 7 Name, 8 Nonce or 12 Extension.
fn read_bare(bare: &[u8]) -> Result<Bare<'_>, TextFault>
    requires enough { length (places_with_mext (parts bare.now) []) + 2 ≤ length (parts bare.now) }
    requires few { length (parts bare.now) ≤ most_parts }
    ensures found { IfOk result (λ m. (p : ClientFirstParts) × IsBare (parts bare.now) p
        × ShowsBare m p) }
    ensures fault { IfErr result (λ f. IsBareMisfit (parts bare.now) f) }
{
    let pieces = bare_pieces_of(bare)?;
    let Some(name) = field::name_of(pieces.name, b'n') else {
        return Err(TextFault {
            part: pieces.index,
            why: TextWhy::Name,
        });
    };
    let Some(nonce) = field::nonce_of(pieces.nonce, MAX_NONCE_PART_LEN) else {
        return Err(TextFault {
            part: pieces.index + 1,
            why: TextWhy::Nonce,
        });
    };
    let extensions = cut::extensions_of(pieces.rest, pieces.index + 2)?;
    Ok(Bare {
        mandatory: pieces.has_mext | extensions.mandatory,
        name,
        nonce,
        extensions: extensions.text,
    })
}

// The parts after the place of reserved-mext. The first of them has this index in the message.
#[derive(Drop)]
struct BarePieces<'a> {
    has_mext: bool,
    index: usize,
    name: &'a [u8],
    nonce: &'a [u8],
    rest: Option<&'a [u8]>,
}

// Cuts client-first-message-bare into these parts. Errors: 6 Mandatory if it begins with `m=` and the value after that is empty.
fn bare_pieces_of(bare: &[u8]) -> Result<BarePieces<'_>, TextFault>
    requires { length (places_with_mext (parts bare.now) []) + 2 ≤ length (parts bare.now) }
    ensures cut { IfOk result (λ pieces. IsCutBare bare.now pieces) }
    ensures fault { IfErr result (λ f. IsBareMisfit (parts bare.now) f) }
{
    let after = cut::mext_of(bare, 2)?;
    let (name, nonce, rest) = cut::cut_two(after.rest);
    Ok(BarePieces {
        has_mext: after.has_mext,
        index: after.index,
        name,
        nonce,
        rest,
    })
}

/// Appends a client-first message (RFC 5802, section 7) to `out`: the flag, the spellings of the name to act as and of the name,
/// the nonce, and the extensions, which are attr-vals with commas between them, or empty. Errors: 16 Unwritable if the flag's name
/// or the extensions are outside their class, else 17 OverLimit if the message would have more than 2048 bytes, else 99 NoMemory,
/// only if `out` had no room reserved for the message. After an error `out` is unchanged.
pub fn write_client_first<A: Allocator>(
    flag: Flag<'_>,
    authzid: Option<&PlainName>,
    name: &PlainName,
    nonce: &NoncePart,
    extensions: &[u8],
    out: &mut Vec<u8, A>,
) -> Result<(), WriteFault>
    ensures { IsMessageWritten result out.old out.new client_first_text IsClientFirst
        (client_first_of flag.entry (option_copied authzid.entry) name.now nonce.now extensions.now)
        (CanBeClientFirst flag.entry extensions.now) }
{
    match write_header_and_bare(flag, authzid, name, nonce, extensions, out) {
        Ok(_) => Ok(()),
        Err(fault) => Err(fault),
    }
}

/// As `write_client_first`. On Ok, returns the length of the gs2-header, after which client-first-message-bare begins.
pub fn write_header_and_bare<A: Allocator>(
    flag: Flag<'_>,
    authzid: Option<&PlainName>,
    name: &PlainName,
    nonce: &NoncePart,
    extensions: &[u8],
    out: &mut Vec<u8, A>,
) -> Result<usize, WriteFault>
    ensures written { IsMessageWritten result out.old out.new client_first_text IsClientFirst
        (client_first_of flag.entry (option_copied authzid.entry) name.now nonce.now extensions.now)
        (CanBeClientFirst flag.entry extensions.now) }
    ensures header { IfOk result (λ len. len
        ≡ length (gs2_header (client_first_of flag.entry (option_copied authzid.entry) name.now nonce.now extensions.now))) }
{
    if !is_flag(&flag) || !cut::are_extensions(extensions) {
        return Err(WriteFault::Unwritable);
    }
    let (draft, header_len) = draft_of(&flag, authzid, name, nonce, extensions);
    draft.append_to(out)?;
    Ok(header_len)
}

// Whether this is a gs2-cbind-flag: a name that it has must be one of a channel binding.
fn is_flag(flag: &Flag<'_>) -> bool
    ensures { result ≡ is_flag (flag_text flag.now) }
{
    match flag {
        Flag::NoBinding | Flag::NotOffered => true,
        Flag::Binding(name) => class::is_cb_name(name),
    }
}

// The whole message, and the length of its gs2-header if it is within the limit.
fn draft_of(
    flag: &Flag<'_>,
    authzid: Option<&PlainName>,
    name: &PlainName,
    nonce: &NoncePart,
    extensions: &[u8],
) -> (MessageDraft, usize)
    requires { CanBeClientFirst flag.now extensions.now }
    ensures draft { IsDraftOf result.0 (client_first_text
        (client_first_of flag.now (option_copied authzid.entry) name.now nonce.now extensions.now)) }
    ensures header { let p = client_first_of flag.now (option_copied authzid.entry) name.now nonce.now extensions.now in
        length (client_first_text p) ≤ max_message_len → result.1 ≡ length (gs2_header p) }
    ensures is_message { let p = client_first_of flag.now (option_copied authzid.entry) name.now nonce.now extensions.now in
        length (client_first_text p) ≤ max_message_len → IsClientFirst (client_first_text p) p }
{
    let mut draft = flag_draft(flag);
    draft.add(b",");
    draft.add_authzid(authzid);
    draft.add(b",");
    let header_len = draft.len();
    draft.add(b"n=");
    draft.add_name(name);
    draft.add(b",r=");
    draft.add(nonce.bytes());
    draft.add_extensions(extensions);
    (draft, header_len)
}

// gs2-cbind-flag
fn flag_draft(flag: &Flag<'_>) -> MessageDraft
    ensures { IsDraftOf result (flag_text flag.now) }
{
    let mut draft = MessageDraft::new();
    match flag {
        Flag::NoBinding => draft.add(b"n"),
        Flag::NotOffered => draft.add(b"y"),
        Flag::Binding(name) => {
            draft.add(b"p=");
            draft.add(name);
        }
    }
    draft
}
