//! How long the parts of a client-first message are that the two ends keep.

use scram_text::{MAX_NAME_LEN, MAX_NONCE_PART_LEN};

/// The greatest length of the spelling of a name, in bytes: at most three for each byte of the name.
pub(crate) const MAX_SPELLING_LEN: usize = 3 * MAX_NAME_LEN;

// The greatest length of a name in a message, in bytes: `n=` or `a=`, and its spelling.
const MAX_NAME_FIELD_LEN: usize = 2 + MAX_SPELLING_LEN;

// The greatest length of a gs2-header without channel binding, in bytes: the flag `n` or `y`, a comma, the name to act as, and a
// comma.
pub(crate) const MAX_HEADER_LEN: usize = 1 + 1 + MAX_NAME_FIELD_LEN + 1;

// The greatest length of the bare message that a client sends, in bytes: the name, a comma, and `r=` with the client's part of the
// nonce. It has no extensions.
pub(crate) const MAX_BARE_LEN: usize = MAX_NAME_FIELD_LEN + 1 + 2 + MAX_NONCE_PART_LEN;

/// The greatest length of the client-first message that a client sends, in bytes.
pub const MAX_FIRST_LEN: usize = MAX_HEADER_LEN + MAX_BARE_LEN;
