//! Logins in a log of version 2: what `S OK` and `S NO` mean under the number of a session.
ghost use Rattle.log_grammar.specs.laws.NumberedLogins.{NumberedPlacesHaveTheirMessages, EachNumberedOkEndsALogin, EachNumberedRefusalIsDue};

/// The messages that the place of a number contains are those of the number's own last lines, whatever stands between them in the
/// log.
pub fn numbered_places_have_their_messages()
    ensures { NumberedPlacesHaveTheirMessages }
{}

/// An `S OK` may stand under a number if and only if the number's lines before it end with the first three messages of a login, and
/// its message makes that login valid (RFC 5802, sections 3 and 5), to the account that the first of them names. Besides, it comes
/// neither after a halt nor between BUSY and its `E`.
pub fn each_numbered_ok_ends_a_login()
    ensures { EachNumberedOkEndsALogin }
{}

/// `S NO` may stand under a number if and only if it is the refusal that is due at the number's place. After a client-final message
/// it says why the login is refused, and no fourth message makes the login valid.
pub fn each_numbered_refusal_is_due()
    ensures { EachNumberedRefusalIsDue }
{}
