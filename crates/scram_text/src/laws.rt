//! Laws of the grammar, for proofs that build on this crate. Each is the contract of a function that does nothing.
ghost use Rattle.scram_text.specs.Laws.{HasUsualBase64};
ghost use Rattle.scram_text.specs.Laws.{PartsAreUtf8, SpellsOneName, NameIsDecided, HasOneClientFirst};
ghost use Rattle.scram_text.specs.Laws.{ClientFirstIsDecided, HasOneServerFirst, ServerFirstIsDecided, HasOneClientFinal};
ghost use Rattle.scram_text.specs.Laws.{ClientFinalIsDecided, HasOneServerFinal, ServerFinalIsDecided};

/// Base64 (RFC 4648, section 4) has its usual form: the text of 1 to 1536 bytes has no comma, decodes to those bytes, and has four
/// characters for every three bytes, rounded up.
pub fn base64_is_usual()
    ensures { HasUsualBase64 }
{}

/// The parts of a UTF-8 text are UTF-8, so their values are made of whole characters.
pub fn parts_are_utf8()
    ensures { PartsAreUtf8 }
{}

/// A saslname spells at most one name (RFC 5802, section 5.1).
pub fn spells_one_name()
    ensures { SpellsOneName }
{}

/// It is decidable whether a text spells a plain name.
pub fn name_is_decided()
    ensures { NameIsDecided }
{}

/// A text is a client-first message in at most one way.
pub fn has_one_client_first()
    ensures { HasOneClientFirst }
{}

/// It is decidable whether a text is a client-first message.
pub fn client_first_is_decided()
    ensures { ClientFirstIsDecided }
{}

/// A text is a server-first message in at most one way.
pub fn has_one_server_first()
    ensures { HasOneServerFirst }
{}

/// It is decidable whether a text is a server-first message.
pub fn server_first_is_decided()
    ensures { ServerFirstIsDecided }
{}

/// A text is a client-final message in at most one way.
pub fn has_one_client_final()
    ensures { HasOneClientFinal }
{}

/// It is decidable whether a text is a client-final message.
pub fn client_final_is_decided()
    ensures { ClientFinalIsDecided }
{}

/// A text is a server-final message in at most one way.
pub fn has_one_server_final()
    ensures { HasOneServerFinal }
{}

/// It is decidable whether a text is a server-final message.
pub fn server_final_is_decided()
    ensures { ServerFinalIsDecided }
{}
