//! Codes that passed in a log of version 2.
ghost use Rattle.log_grammar.specs.laws.NumberedReplies.{EachNumberedPassIsACode, NumberedCountersRise, NoNumberedCounterIsUsedTwice};

/// PASS may stand under a number only after a code of its session that is the token's for the counter that passes, with this
/// counter inside the window (RFC 4226, section 7.4, and RFC 6238, sections 5.2 and 6) after all earlier replies for the account,
/// under any number; or after two codes in a row that are the token's for the counter before it and for it, inside the window for
/// two.
pub fn each_numbered_pass_is_a_code()
    ensures { EachNumberedPassIsACode }
{}

/// No counter of an account passes twice in a log: of two passes of one account, under any numbers, the later has the greater
/// counter.
pub fn numbered_counters_rise()
    ensures { NumberedCountersRise }
{}

/// No counter of an account is used twice in a log: the counters of its codes that passed (both, for two codes in a row) rise.
pub fn no_numbered_counter_is_used_twice()
    ensures { NoNumberedCounterIsUsedTwice }
{}
