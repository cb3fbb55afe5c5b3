//! What both ends of a login sign (RFC 5802, section 3), where its parts lie.

/// AuthMessage in its three parts, between which it has commas. The parts are slices of the messages, and nothing is copied.
#[derive(Clone, Copy)]
pub struct AuthMessage<'a> {
    /// client-first-message-bare, as `n=user,r=abc`.
    pub bare: &'a [u8],

    /// server-first-message, as `r=abcdef,s=QSXCR+Q6sek8bf92,i=4096`.
    pub server_first: &'a [u8],

    /// client-final-message-without-proof, as `c=biws,r=abcdef`.
    pub without_proof: &'a [u8],
}
