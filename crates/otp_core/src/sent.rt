//! What a client sends to be judged: one code, or two in a row.

/// The text of one code, or the texts of two codes in a row (RFC 4226, section 7.4).
#[derive(Clone, Copy)]
pub enum SentCodes<'a> {
    /// The text of one code.
    One(&'a [u8]),

    /// The texts of two codes, the earlier one first.
    Two(&'a [u8], &'a [u8]),
}
