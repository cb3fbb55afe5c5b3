//! User names, in plain bytes and as a message spells them (RFC 5802, section 5.1).
ghost use Rattle.std.specs.Prelude.{◌≡◌, ◌≤◌, ℕ, List, [], ◌++◌, length, ◌↔◌, IsTrue, ◌<◌, ◌+◌, IfSome, IfNone, IfErr, MatchOption};
ghost use Rattle.std.specs.Option.{SomeIff};
ghost use Rattle.scram_text.specs.Limits.{max_name_len};
ghost use Rattle.scram_text.specs.Class.{IsPlainName};
ghost use Rattle.scram_text.specs.Name.{IsSaslName, LacksComma, SpellsName, byte_spelling, name_spelling, is_escaped, begins_with_escape};
ghost use Rattle.scram_text.specs.Appended.{IsAppended, LacksRoom};

use crate::draft::MessageDraft;
use crate::fault::WriteFault;
use crate::{MAX_NAME_LEN, class};
use arrayvec::ArrayVec;
use mac_core::copy_of;
use std::alloc::Allocator;
use std::marker::Model;

/// A name: 1 to 255 bytes from 0x20 to 0x7E, which SASLprep (RFC 4013) leaves as they are. Names are ordered by their bytes: `Z`,
/// `a`, `a.`, `aa`. Contracts see a name as its bytes.
#[derive(PartialEq, Eq, PartialOrd, Ord, Drop)]
pub struct PlainName {
    bytes: ArrayVec<u8, MAX_NAME_LEN>,
}

impl Model for PlainName {
    ghost Value = { List ℕ };

    ghost view = { λ n. n.bytes.items };

    ghost invariant = { λ n. IsPlainName n.bytes.items };

    ghost inverse = { λ bytes. record { bytes = record { items = bytes } } };
}

impl PlainName {
    /// The name of these bytes, or None if they are not 1 to 255 bytes from 0x20 to 0x7E.
    pub fn new(bytes: &[u8]) -> Option<PlainName>
        ensures { SomeIff result (IsPlainName bytes.now) bytes.now }
    {
        if !class::is_plain_run(bytes, MAX_NAME_LEN) {
            return None;
        }
        Some(PlainName {
            bytes: copy_of(bytes),
        })
    }

    /// The bytes of the name, 1 to 255.
    pub fn bytes(&self) -> &[u8]
        ensures value { result.now ≡ self.now }
        ensures fits { IsPlainName self.now }
    {
        self.bytes.as_slice()
    }

    /// The name as a text: its bytes are ASCII.
    pub fn text(&self) -> &str
        ensures value { result.now ≡ self.now }
        ensures fits { IsPlainName self.now }
    {
        match str::from_utf8(self.bytes()) {
            Ok(text) => text,
            Err(_) => unreachable!(),
        }
    }

    /// A copy of the name.
    pub fn copy(&self) -> PlainName
        ensures { result ≡ self.now }
    {
        PlainName {
            bytes: copy_of(self.bytes()),
        }
    }
}

/// A saslname as a message spells it: at least one byte, with `=2C` for each comma and `=3D` for each equals sign of the name.
/// Contracts see it as its bytes.
#[derive(Drop)]
pub struct SaslText<'a> {
    spelled: &'a [u8],
}

impl<'a> Model for SaslText<'a> {
    ghost Value = { List ℕ };

    ghost view = { λ s. s.spelled.now };

    ghost invariant = { λ s. IsSaslName s.spelled.now };
}

impl<'a> SaslText<'a> {
    /// The saslname of these bytes, or None if they are not one.
    pub(crate) fn new(spelled: &'a [u8]) -> Option<SaslText<'a>>
        ensures { SomeIff result (IsSaslName spelled.now) spelled.now }
    {
        if is_saslname(spelled) {
            Some(SaslText { spelled })
        } else {
            None
        }
    }

    /// The saslname's bytes, as they stand in the message.
    pub fn spelled(&self) -> &'a [u8]
        ensures value { result.now ≡ self.now }
        ensures fits { IsSaslName self.now }
    {
        self.spelled
    }

    /// The name that it spells, or None if that is not 1 to 255 bytes from 0x20 to 0x7E.
    pub fn plain(&self) -> Option<PlainName>
        ensures some { IfSome result (λ name. SpellsName name self.now) }
        ensures none { IfNone result ((name : List ℕ) → IsPlainName name
            → SpellsName name self.now → ⊥) }
    {
        PlainName::new(unescaped(self.spelled)?.as_slice())
    }
}

// The bytes of the name that is spelled, or None if there are more than 255.
fn unescaped(spelled: &[u8]) -> Option<ArrayVec<u8, MAX_NAME_LEN>>
    requires escaped { IsTrue (is_escaped spelled.now) }
    requires no_comma { LacksComma spelled.now }
    ensures some { IfSome result (λ name. SpellsName name.items spelled.now) }
    ensures none { IfNone result ((name : List ℕ) → length name ≤ max_name_len
        → SpellsName name spelled.now → ⊥) }
{
    let mut name = ArrayVec::new();
    let mut rest = spelled;
    while let Some((byte, more)) = unescape(rest) {
        if name.try_push(byte).is_err() {
            return None;
        }
        rest = more;
    }
    Some(name)
}

// The first byte of the name and the spelling of the others, or None at the end.
fn unescape(text: &[u8]) -> Option<(u8, &[u8])>
    requires escaped { IsTrue (is_escaped text.now) }
    requires no_comma { LacksComma text.now }
    ensures first { MatchOption result (text.now ≡ []) (λ found. text.now ≡ byte_spelling found.0
        ++ found.1.now) }
    ensures escaped { IfSome result (λ found. IsTrue (is_escaped found.1.now)) }
    ensures no_comma { IfSome result (λ found. LacksComma found.1.now) }
{
    match text {
        [] => None,
        [b'=', b'2', b'C', more @ ..] => Some((b',', more)),
        [b'=', b'3', b'D', more @ ..] => Some((b'=', more)),
        [byte, more @ ..] => Some((*byte, more)),
    }
}

// Whether this is 1*(value-safe-char / "=2C" / "=3D"), once it is known to be UTF-8 without a NUL.
fn is_saslname(spelled: &[u8]) -> bool
    ensures { IsTrue result ↔ IsSaslName spelled.now }
{
    class::lacks_comma(spelled) && is_escaped(spelled) && !spelled.is_empty()
}

// Whether each `=` begins `=2C` or `=3D`.
fn is_escaped(text: &[u8]) -> bool
    ensures { result ≡ is_escaped text.now }
{
    let mut rest = text;
    while let [first, more @ ..] = rest {
        if *first == b'=' && !begins_with_escape(more) {
            return false;
        }
        rest = more;
    }
    true
}

// Whether the text begins with `2C` or `3D`.
fn begins_with_escape(text: &[u8]) -> bool
    ensures { result ≡ begins_with_escape text.now }
{
    matches!(text, [b'2', b'C', ..] | [b'3', b'D', ..])
}

/// Appends the spelling of a name to `out`, with `=2C` for each comma and `=3D` for each equals sign (RFC 5802, section 5.1).
/// Errors: 99 NoMemory, only if `out` had no room reserved for the spelling. After an error `out` is unchanged.
pub fn write_name<A: Allocator>(name: &PlainName, out: &mut Vec<u8, A>) -> Result<(), WriteFault>
    ensures appended { IsAppended result out.old out.new (name_spelling name.now) }
    ensures is_saslname { IsSaslName (name_spelling name.now) }
    ensures no_memory { IfErr result (λ f. (f ≡ WriteFault.NoMemory)
        × LacksRoom out.old (name_spelling name.now)) }
{
    let mut draft = MessageDraft::new();
    draft.add_name(name);
    draft.append_to(out)
}
