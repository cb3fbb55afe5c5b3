//! What the reason of a fault says about the log: which line may stand instead of the one at fault, and that what follows it does
//! not matter.
ghost use Rattle.log_grammar.specs.laws.Reasons.{DueRepliesCanBeWritten, WhatIsDueMayStand, EachLineThatIsDueMayStand};
ghost use Rattle.log_grammar.specs.laws.Reasons.{FaultsHoldWhateverFollows};

/// What a reason names as due may stand, in a log of version 1, if a challenge can be written for each account and decoy. If the
/// reason names the mechanisms, a challenge, an outcome, or a reply whose counter is in its range (`due_replies_can_be_written`
/// says when it is), then the lines before the line at fault, followed by a line that says what is due, begin a clean log. This is
/// true of every line that says so and can be written, except a challenge: a reason does not name a challenge's text.
pub fn what_is_due_may_stand()
    ensures some { WhatIsDueMayStand }
    ensures each { EachLineThatIsDueMayStand }
{}

/// If a whole line is at fault, it is at fault for the same reason in all bytes that begin with the same lines, whatever follows
/// them.
pub fn faults_hold_whatever_follows()
    ensures { FaultsHoldWhateverFollows }
{}

/// The reply that is due to a code can be written if the token is in its ranges: the counter of the reply is then in the range of
/// those that a line may have.
pub fn due_replies_can_be_written()
    ensures { DueRepliesCanBeWritten }
{}
