//! An open session of a hall, with its number.
use crate::session::Session;
use scram_text::NoncePart;

/// The open session of a number, and the server's part of its nonce.
#[derive(Drop)]
pub(crate) struct OpenSession {
    /// The number that its lines in a log begin with.
    pub(crate) number: u64,

    /// Where the session stands, and what it keeps of its login.
    pub(crate) session: Session,

    /// The server's part of its nonce.
    pub(crate) server_nonce: NoncePart,
}
