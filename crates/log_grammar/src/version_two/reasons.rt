//! What the reason of a fault says about a log of version 2: which line may stand instead of the one at fault.
ghost use Rattle.log_grammar.specs.laws.NumberedReasons.{WhatIsDueMayStandUnderItsNumber, EachNumberedLineThatIsDueMayStand};

/// What a reason names as due may stand under the number of the line at fault, if a challenge can be written for each account and
/// decoy. If the reason names the mechanisms, a challenge, an outcome, or a reply whose counter is in its range, then the lines
/// before the line at fault, followed by a line that says what is due, begin a clean log. This is true of every line that says so
/// and can be written, except a challenge: a reason does not name a challenge's text.
pub fn what_is_due_may_stand_under_its_number()
    ensures some { WhatIsDueMayStandUnderItsNumber }
    ensures each { EachNumberedLineThatIsDueMayStand }
{}
