//! Verifiers: an account's keys as PostgreSQL and Dovecot spell them.
ghost use Rattle.std.specs.Prelude.{◌≡◌, ◌≢◌, ◌≤◌, ◌==◌, ℕ, List, [], ◌∷◌, ◌++◌, length, decimal, position, Some, IfSome, IfNone, IsSomeAnd};
ghost use Rattle.mac_core.specs.declared.mechanism.Mechanism.{Mechanism};
ghost use Rattle.scram_text.specs.Class.{Lacks};
ghost use Rattle.scram_text.specs.Base64Field.{base64, IsField};
ghost use Rattle.scram_text.specs.Limits.{max_salt_len, max_tag_len};
ghost use Rattle.scram_text.specs.Parts.{IsCount};
ghost use Rattle.c_library.specs.Buffers.{IsPut};
ghost use Rattle.c_library.specs.Demands.{IsAnswered, demand};
ghost use Rattle.c_library.specs.Entries.{IsNoMechanism};
ghost use Rattle.c_library.specs.Numbers.{mechanism_number};
ghost use Rattle.c_library.specs.Verifiers.{IsVerifier, IsRead, is_verifier, verifier_demands, verifier_in, verifier_text, fields_text};
ghost use Rattle.c_library.specs.Verifiers.{scheme, outer, inner, spelling_number, IsNoSpelling};
ghost use Rattle.c_library.specs.declared.verifier.Spelling.{Spelling as TheSpelling};
ghost use Rattle.c_library.specs.inner.Verifiers.{AreCut, HasKeys};

use crate::entry::{StoredEntry, digest_len, mechanism_of};
use crate::fault::Fault;
use crate::keys::number_of;
use crate::put::{padded, put};
use crate::text::{add, add_base64};
use arrayvec::ArrayVec;
use itoa::Buffer;
use mac_core::{Mechanism, Tag, law_of_bytes};
use scram_text::{FinalResult, Salt, read_server_final, read_server_first};

// The greatest length of a verifier, in bytes: `{SCRAM-SHA-256}`, ten digits, three joints, and the base64 of 64, 32 and 32 bytes.
const MAX_VERIFIER_LEN: usize = 15 + 10 + 3 + 88 + 88 + 88;

/// How a verifier is spelled.
#[derive(Clone, Copy, Debug, PartialEq, Eq)]
pub enum Spelling {
    /// `SCRAM-SHA-256$COUNT:SALT$STORED:SERVER`, as PostgreSQL and Cyrus have it (RFC 5803).
    Postgres,

    /// `{SCRAM-SHA-256}COUNT,SALT,STORED,SERVER`, as Dovecot has it.
    Dovecot,
}

// The keys of a verifier, and how it spells them.
#[derive(Drop)]
struct Verifier {
    spelling: Spelling,
    mechanism: Mechanism,
    count: u32,
    salt: Salt,
    stored: Tag,
    server: Tag,
}

// What a text has after its scheme, such as `SCRAM-SHA-256$`.
#[derive(Drop)]
struct Rest<'a> {
    spelling: Spelling,
    mechanism: Mechanism,
    text: &'a [u8],
}

// The four fields of a verifier, as it spells them.
#[derive(Drop)]
struct Fields<'a> {
    count: &'a [u8],
    salt: &'a [u8],
    stored: &'a [u8],
    server: &'a [u8],
}

/// Reads a verifier of either spelling into an entry. Returns 0, or else, with the entry as before, 96 if the text is no verifier.
#[unsafe(no_mangle)]
pub extern "C" fn scramotp_read_verifier(text: &[u8], entry: &mut StoredEntry) -> u32
    ensures { IsAnswered (is_verifier text.now ∷ []) result ((result ≡ 0) × IsRead text.now entry.new) (entry.new ≡ entry.old) }
{
    let Some(verifier) = read(text) else {
        return Fault::Verifier.number();
    };
    *entry = StoredEntry {
        mechanism: number_of(verifier.mechanism),
        count: verifier.count,
        salt_len: verifier.salt.bytes().len(),
        key_len: verifier.stored.len(),
        salt: padded(verifier.salt.bytes()),
        stored_key: padded(verifier.stored.as_slice()),
        server_key: padded(verifier.server.as_slice()),
    };
    0
}

// The keys of a verifier, or None if the text is none. A text is one if it is spelled as the keys that are found in it are.
fn read(text: &[u8]) -> Option<Verifier>
    ensures some { IfSome result (λ v. IsVerifier text.now v.spelling v.mechanism v.count v.salt v.stored.items v.server.items) }
    ensures none { IfNone result ((s : TheSpelling) (mechanism : Mechanism) (count : ℕ) (salt stored server : List ℕ)
        → IsVerifier text.now s mechanism count salt stored server → ⊥) }
{
    let found = candidate(text)?;
    // For the proof: the elements of the keys are bytes.
    law_of_bytes(found.stored.as_slice());
    law_of_bytes(found.server.as_slice());
    let len = digest_len(found.mechanism);
    if found.stored.len() != len || found.server.len() != len {
        return None;
    }
    let spelled = verifier_text(
        found.spelling,
        found.mechanism,
        found.count,
        &found.salt,
        &found.stored,
        &found.server,
    );
    if spelled.as_slice() == text {
        Some(found)
    } else {
        None
    }
}

// What the text would be the verifier of.
fn candidate(text: &[u8]) -> Option<Verifier>
    ensures class { IfSome result (λ v. IsCount v.count × IsField max_salt_len v.salt) }
    ensures every { (s : TheSpelling) (mechanism : Mechanism) (count : ℕ) (salt stored server : List ℕ)
        → IsVerifier text.now s mechanism count salt stored server
        → IsSomeAnd result (λ v. HasKeys v s mechanism count salt stored server) }
{
    let rest = after_scheme(text)?;
    keys_of(rest.spelling, rest.mechanism, rest.text)
}

// What the text has after its scheme, or None if it begins with no scheme.
fn after_scheme(text: &[u8]) -> Option<Rest<'_>>
    ensures some { IfSome result (λ rest. text.now ≡ scheme rest.spelling rest.mechanism ++ rest.text.now) }
    ensures none { IfNone result ((s : TheSpelling) (mechanism : Mechanism) (rest : List ℕ)
        → text.now ≢ scheme s mechanism ++ rest) }
{
    if let Some(rest) = text.strip_prefix(b"SCRAM-SHA-256$") {
        return Some(Rest {
            spelling: Spelling::Postgres,
            mechanism: Mechanism::ScramSha256,
            text: rest,
        });
    }
    if let Some(rest) = text.strip_prefix(b"SCRAM-SHA-1$") {
        return Some(Rest {
            spelling: Spelling::Postgres,
            mechanism: Mechanism::ScramSha1,
            text: rest,
        });
    }
    if let Some(rest) = text.strip_prefix(b"{SCRAM-SHA-256}") {
        return Some(Rest {
            spelling: Spelling::Dovecot,
            mechanism: Mechanism::ScramSha256,
            text: rest,
        });
    }
    let rest = text.strip_prefix(b"{SCRAM-SHA-1}")?;
    Some(Rest {
        spelling: Spelling::Dovecot,
        mechanism: Mechanism::ScramSha1,
        text: rest,
    })
}

// The keys that the text after the scheme would have.
fn keys_of(spelling: Spelling, mechanism: Mechanism, text: &[u8]) -> Option<Verifier>
    ensures class { IfSome result (λ v. IsCount v.count × IsField max_salt_len v.salt) }
    ensures every { (count : ℕ) (salt stored server : List ℕ)
        → IsVerifier (scheme spelling mechanism ++ text.now) spelling mechanism count salt stored server
        → IsSomeAnd result (λ v. HasKeys v spelling mechanism count salt stored server) }
{
    let fields = cut(spelling, text)?;
    let (salt, count) = salt_and_count(fields.salt, fields.count)?;
    let stored = tag_of(fields.stored)?;
    let server = tag_of(fields.server)?;
    Some(Verifier {
        spelling,
        mechanism,
        count,
        salt,
        stored,
        server,
    })
}

// The fields of the text after the scheme, or None if it has fewer than four.
fn cut(spelling: Spelling, text: &[u8]) -> Option<Fields<'_>>
    ensures { (count salt stored server : List ℕ) → AreCut spelling count salt stored
        → text.now ≡ fields_text spelling count salt stored server
        → IsSomeAnd result (λ f. (f.count.now ≡ count) × (f.salt.now ≡ salt)
        × (f.stored.now ≡ stored) × (f.server.now ≡ server)) }
{
    let (count, rest) = cut_at(text, outer(spelling))?;
    let (salt, rest) = cut_at(rest, inner(spelling))?;
    let (stored, server) = cut_at(rest, outer(spelling))?;
    Some(Fields {
        count,
        salt,
        stored,
        server,
    })
}

// The text before the first of these bytes, and the text after it, or None if there is none.
fn cut_at(text: &[u8], at: u8) -> Option<(&[u8], &[u8])>
    ensures some { IfSome result (λ cut. (text.now ≡ cut.0.now ++ at ∷ cut.1.now) × Lacks at cut.0.now) }
    ensures none { IfNone result (Lacks at text.now) }
{
    match index_of(text, at) {
        None => None,
        Some(index) => Some((&text[..index], &text[index + 1..])),
    }
}

// The index of the first of these bytes, or None if there is none.
fn index_of(text: &[u8], at: u8) -> Option<usize>
    ensures { result ≡ position (λ c. c == at) text.now }
{
    text.iter().position(|byte| *byte == at)
}

// The salt and the count that two fields spell, which a challenge has in the same spelling; or None if they spell none.
fn salt_and_count(salt: &[u8], count: &[u8]) -> Option<(Salt, u32)>
    ensures class { IfSome result (λ found. IsField max_salt_len found.0 × IsCount found.1) }
    ensures every { (bytes : List ℕ) (number : ℕ) → IsField max_salt_len bytes → IsCount number → salt.now ≡ base64 bytes
        → count.now ≡ decimal number → IsSomeAnd result (λ found. (found.0 ≡ bytes) × (found.1 ≡ number)) }
{
    let mut text: ArrayVec<u8, 108> = ArrayVec::new();
    add(&mut text, b"r=xy,s=");
    if 88 < salt.len() || 10 < count.len() {
        return None;
    }
    add(&mut text, salt);
    add(&mut text, b",i=");
    add(&mut text, count);
    match read_server_first(text.as_slice()) {
        Ok(challenge) => Some((challenge.salt, challenge.count)),
        Err(_) => None,
    }
}

// The key that a field spells, which a server's last message has in the same spelling; or None if it spells none.
fn tag_of(field: &[u8]) -> Option<Tag>
    ensures { (bytes : List ℕ) → IsField max_tag_len bytes → field.now ≡ base64 bytes → IsSomeAnd result (λ tag. tag.items ≡ bytes) }
{
    let mut text: ArrayVec<u8, 90> = ArrayVec::new();
    add(&mut text, b"v=");
    if 88 < field.len() {
        return None;
    }
    add(&mut text, field);
    let Ok(last) = read_server_final(text.as_slice()) else {
        return None;
    };
    match last.result {
        FinalResult::Verifier(tag) => Some(tag),
        FinalResult::ErrorValue(_) => None,
    }
}

/// Writes the verifier of an entry's keys to `out`, and its length to `out_len`: as PostgreSQL spells it if the spelling is 1, and as
/// Dovecot does if it is 2.
///
/// Returns 0, or else, with `out` and `out_len` as before, the first of these that applies: 90 if there is no such mechanism, 97 if there
/// is no such spelling, 65, 64 or 66 if the count, the salt or the length of the keys is not in its form, or if the entry is a decoy, and
/// 93 if `out` is shorter than the verifier.
#[unsafe(no_mangle)]
pub extern "C" fn scramotp_write_verifier(
    entry: &StoredEntry,
    spelling: u32,
    out: &mut [u8],
    out_len: &mut usize,
) -> u32
    ensures mechanism { IsNoMechanism entry.now.mechanism → (result ≡ 90) × (out.new ≡ out.old) × (out_len.new ≡ out_len.old) }
    ensures spelling { (m : Mechanism) → entry.now.mechanism ≡ mechanism_number m → IsNoSpelling spelling
        → (result ≡ 97) × (out.new ≡ out.old) × (out_len.new ≡ out_len.old) }
    ensures answer { (m : Mechanism) (s : TheSpelling) → entry.now.mechanism ≡ mechanism_number m → spelling ≡ spelling_number s
        → IsAnswered (verifier_demands m entry.now
        ++ demand 93 (length (verifier_in s m entry.now) ≤ length out.old) ∷ []) result
        ((result ≡ 0) × IsPut out.old out.new (verifier_in s m entry.now) × (out_len.new ≡ length (verifier_in s m entry.now)))
        ((out.new ≡ out.old) × (out_len.new ≡ out_len.old)) }
{
    let Some(mechanism) = mechanism_of(entry.mechanism) else {
        return Fault::Mechanism.number();
    };
    let Some(spelling) = spelling_of(spelling) else {
        return Fault::Spelling.number();
    };
    let view = match entry.view(mechanism, &[]) {
        Ok(view) => view,
        Err(fault) => return fault.number(),
    };
    let Some(keys) = &view.keys else {
        return Fault::KeyLength.number();
    };
    let text = verifier_text(
        spelling,
        mechanism,
        view.count,
        &view.salt,
        &keys.stored,
        &keys.server,
    );
    if put(text.as_slice(), out, out_len) {
        0
    } else {
        Fault::NoRoom.number()
    }
}

// The spelling of this number, or None if there is none.
fn spelling_of(number: u32) -> Option<Spelling>
    ensures some { IfSome result (λ s. number ≡ spelling_number s) }
    ensures every { (s : TheSpelling) → number ≡ spelling_number s → result ≡ Some s }
    ensures none { IfNone result (IsNoSpelling number) }
{
    match number {
        1 => Some(Spelling::Postgres),
        2 => Some(Spelling::Dovecot),
        _ => None,
    }
}

// The verifier of these keys.
fn verifier_text(
    spelling: Spelling,
    mechanism: Mechanism,
    count: u32,
    salt: &Salt,
    stored: &Tag,
    server: &Tag,
) -> ArrayVec<u8, MAX_VERIFIER_LEN>
    ensures { result.items ≡ verifier_text spelling mechanism count salt.now stored.now.items server.now.items }
{
    let (before, after) = match spelling {
        Spelling::Postgres => (b"".as_slice(), b"$".as_slice()),
        Spelling::Dovecot => (b"{".as_slice(), b"}".as_slice()),
    };
    let mut text = ArrayVec::new();
    add(&mut text, before);
    add(&mut text, mechanism.name().as_bytes());
    add(&mut text, after);
    add(&mut text, Buffer::new().format(count).as_bytes());
    add(&mut text, &[outer(spelling)]);
    add_base64(&mut text, salt.bytes());
    add(&mut text, &[inner(spelling)]);
    add_base64(&mut text, stored.as_slice());
    add(&mut text, &[outer(spelling)]);
    add_base64(&mut text, server.as_slice());
    text
}

// The byte after the count and between the keys.
fn outer(spelling: Spelling) -> u8
    ensures { result ≡ outer spelling }
{
    match spelling {
        Spelling::Postgres => b':',
        Spelling::Dovecot => b',',
    }
}

// The byte between the salt and the keys.
fn inner(spelling: Spelling) -> u8
    ensures { result ≡ inner spelling }
{
    match spelling {
        Spelling::Postgres => b'$',
        Spelling::Dovecot => b',',
    }
}
