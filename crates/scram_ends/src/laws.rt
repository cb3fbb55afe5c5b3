//! Laws of logins, for proofs that build on this crate. Each is the contract of a function that does nothing.
ghost use Rattle.scram_ends.specs.Laws.{AtMostOneVerdictIsDue, SomeVerdictIsDue, AcceptsExactlyValid, RefusedIsNotTakenUp};
ghost use Rattle.scram_ends.specs.Laws.{TakenUpMeetsEveryRow};

/// At most one verdict is due to a text that is received as client-final.
pub fn at_most_one_verdict_is_due()
    ensures { AtMostOneVerdictIsDue }
{}

/// If the first two messages open a login, some verdict is due to every text that is received as client-final.
pub fn some_verdict_is_due()
    ensures { SomeVerdictIsDue }
{}

/// A login is valid if and only if acceptance is due to its client-final message and its server-final message contains the
/// signature.
pub fn accepts_exactly_valid()
    ensures { AcceptsExactlyValid }
{}

/// No client-first message is both refused and taken up.
pub fn refused_is_not_taken_up()
    ensures { RefusedIsNotTakenUp }
{}

/// A client-first message is taken up if and only if its parts meet every row of the table of its faults.
pub fn taken_up_meets_every_row()
    ensures { TakenUpMeetsEveryRow }
{}
