//! Reads the line of a client.
ghost use Rattle.std.specs.Prelude.{IfNone, IfSome};
ghost use Rattle.log_grammar.specs.Lines as grammar;
ghost use Rattle.log_grammar.specs.Lines.{from_client, IsLine, IsLineWritable};
ghost use Rattle.sasl_log.specs.Shown.{client_shown};

use sasl_log::{ClientLine, Line, read_line};

/// The line of a client that this text is, or None if it is none.
pub(crate) fn client_line(text: &[u8]) -> Option<ClientLine<'_>>
    ensures some { IfSome result (λ line. IsLine text.now (from_client (client_shown line))) }
    ensures none { IfNone result ((line : grammar.ClientLine) → IsLine text.now (from_client line) → ⊥) }
    // The line that was read can be written.
    ensures written { IfSome result (λ line. IsLineWritable (from_client (client_shown line))) }
{
    match read_line(text) {
        Ok(Line::FromClient(line)) => Some(line),
        Ok(Line::FromServer(_)) => None,
        Err(_) => None,
    }
}
