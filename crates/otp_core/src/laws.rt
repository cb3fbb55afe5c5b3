//! Laws about histories of attempts, for crates that use tokens. Each is the contract of a function that does nothing.
ghost use Rattle.otp_core.specs.Laws.{BeginsWithItself, CandidatesAreNew, UsedStaysUsed, HistoriesJoin, LegalHistoriesJoin};
ghost use Rattle.otp_core.specs.Laws.{AtMostOneReplyIsDue, SomeReplyIsDue};

/// A token and the empty history lead to that token, so a run may begin with any token.
pub fn begins_with_itself()
    ensures { BeginsWithItself }
{}

/// A counter that can pass, by itself or as the first of a pair, is above every counter that the history so far has used. So no
/// counter is used twice.
pub fn candidates_are_new()
    ensures { CandidatesAreNew }
{}

/// A counter that a token has used can't pass again after any legal history from that token, by itself or as the first of a pair.
/// Which counters are used does not depend on the failures, so the law also holds for the token after an unlock.
pub fn used_stays_used()
    ensures { UsedStaysUsed }
{}

/// If one history leads from a start to a token, and a later one leads from there to another token, then both together lead from
/// the start to that other token.
pub fn histories_join()
    ensures { HistoriesJoin }
{}

/// If one history leads from a start to a token, and a later one is legal from there, then both together are legal from the start,
/// and the failures and the counters that can pass are the same after both together as after the later one from there.
pub fn legal_histories_join()
    ensures { LegalHistoriesJoin }
{}

/// At most one reply is due to an attempt. So the start and the history decide whether a recorded reply is right.
pub fn at_most_one_reply_is_due()
    ensures { AtMostOneReplyIsDue }
{}

/// At least one reply is due to every attempt, after any start and history.
pub fn some_reply_is_due()
    ensures { SomeReplyIsDue }
{}
