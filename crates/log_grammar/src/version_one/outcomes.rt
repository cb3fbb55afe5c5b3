//! Where each of the server's lines may stand in a log of version 1: what the demands make due at a place, stated line by line.
ghost use Rattle.log_grammar.specs.laws.Outcomes.{FirstLinesBeginLogs, PlacesHaveTheirMessages, EachOfferIsDue, EachChallengeIsDue};
ghost use Rattle.log_grammar.specs.laws.Outcomes.{EachRefusalIsDue, EachReplyIsDue, EachHaltEndsACode};

/// The first lines of what a log may begin with are also what a log may begin with, and their replies are the first ones. So what
/// is said here about a log's last line holds for each of its lines.
pub fn first_lines_begin_logs()
    ensures { FirstLinesBeginLogs }
{}

/// The messages that a log's place contains, which the demands on the next line are about, are those of its last lines.
pub fn places_have_their_messages()
    ensures { PlacesHaveTheirMessages }
{}

/// `S MECHS` may stand exactly where a session may begin, with the names of the two mechanisms.
pub fn each_offer_is_due()
    ensures { EachOfferIsDue }
{}

/// `S CONT` may stand if and only if it is the empty challenge after a mechanism that is offered, or a challenge to the
/// client-first message, with the salt and the count of the account that it names, or of its decoy.
pub fn each_challenge_is_due()
    ensures { EachChallengeIsDue }
{}

/// `S NO` may stand if and only if it is the refusal that is due. After a client-final message it says why the login is refused,
/// and no fourth message makes the login valid.
pub fn each_refusal_is_due()
    ensures { EachRefusalIsDue }
{}

/// PASS, FAIL, LOCKED and NOCODE may stand if and only if they are the reply that is due to the code before them, or to the two in
/// a row, after all earlier replies for its account.
pub fn each_reply_is_due()
    ensures { EachReplyIsDue }
{}

/// `S HALT` may stand after any code, or any two in a row, and nowhere else.
pub fn each_halt_ends_a_code()
    ensures { EachHaltEndsACode }
{}
