//! Predicates for the character classes of SCRAM messages (RFC 5802, section 7).
ghost use Rattle.std.specs.Prelude.{◌≡◌, ◌==◌, ◌↔◌, IsTrue, not};
ghost use Rattle.std.specs.List.{list_all};
ghost use Rattle.std.specs.Str.{byte};
ghost use Rattle.scram_text.specs.Class.{is_comma, is_printable, is_plain, is_letter, is_cb_char, IsNonce, IsCharsOf, IsUtf8Text};
ghost use Rattle.scram_text.specs.Parts.{is_cb_name};

/// Whether the byte is printable = %x21-2B / %x2D-7E.
pub(crate) fn is_printable(byte: u8) -> bool
    ensures { result ≡ is_printable byte }
{
    (0x21..=0x7E).contains(&byte) && byte != b','
}

/// Whether no byte is a comma.
pub(crate) fn lacks_comma(bytes: &[u8]) -> bool
    ensures { result ≡ list_all (λ c. not (is_comma c)) bytes.now }
{
    bytes.iter().all(|byte| *byte != b',')
}

/// Whether the byte is from 0x20 to 0x7E.
pub(crate) fn is_plain(byte: u8) -> bool
    ensures { result ≡ is_plain byte }
{
    (0x20..=0x7E).contains(&byte)
}

/// Whether these are 1 to `most` bytes from 0x20 to 0x7E.
pub(crate) fn is_plain_run(bytes: &[u8], most: usize) -> bool
    ensures { IsTrue result ↔ IsCharsOf is_plain most bytes.now }
{
    are_plain(bytes) && !bytes.is_empty() && bytes.len() <= most
}

// Whether each byte is from 0x20 to 0x7E.
fn are_plain(bytes: &[u8]) -> bool
    ensures { result ≡ list_all is_plain bytes.now }
{
    bytes.iter().all(|byte| is_plain(*byte))
}

/// Whether these are 1 to `most` printable characters.
pub(crate) fn is_nonce(bytes: &[u8], most: usize) -> bool
    ensures { IsTrue result ↔ IsNonce most bytes.now }
{
    are_printable(bytes) && !bytes.is_empty() && bytes.len() <= most
}

// Whether each byte is printable.
fn are_printable(bytes: &[u8]) -> bool
    ensures { result ≡ list_all is_printable bytes.now }
{
    bytes.iter().all(|byte| is_printable(*byte))
}

/// Whether the byte is ALPHA.
pub(crate) fn is_letter(byte: u8) -> bool
    ensures { result ≡ is_letter byte }
{
    byte.is_ascii_alphabetic()
}

/// Whether this is the name of a channel binding: cb-name = 1*(ALPHA / DIGIT / "." / "-").
pub(crate) fn is_cb_name(name: &[u8]) -> bool
    ensures { result ≡ is_cb_name name.now }
{
    !name.is_empty() && are_cb_chars(name)
}

// Whether each byte may be in the name of a channel binding.
fn are_cb_chars(name: &[u8]) -> bool
    ensures { result ≡ list_all is_cb_char name.now }
{
    name.iter().all(|byte| is_cb_char(*byte))
}

// Whether the byte is ALPHA, DIGIT, `.` or `-`.
fn is_cb_char(byte: u8) -> bool
    ensures { result ≡ is_cb_char byte }
{
    byte.is_ascii_alphanumeric() || byte == b'.' || byte == b'-'
}

/// Whether this is UTF-8 with no NUL.
pub(crate) fn is_utf8_text(bytes: &[u8]) -> bool
    ensures { IsTrue result ↔ IsUtf8Text bytes.now }
{
    str::from_utf8(bytes).is_ok() && lacks_nul(bytes)
}

// Whether no byte is a NUL.
fn lacks_nul(bytes: &[u8]) -> bool
    ensures { result ≡ list_all (λ c. not (c == byte "\0")) bytes.now }
{
    bytes.iter().all(|byte| *byte != 0)
}
