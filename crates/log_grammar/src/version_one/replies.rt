//! Codes that passed in a log of version 1.
ghost use Rattle.log_grammar.specs.laws.Replies.{EachPassIsACode, CountersRise, NoCounterIsUsedTwice, NextHotpCodePasses};
ghost use Rattle.log_grammar.specs.laws.Replies.{NextTwoHotpCodesPass};

/// PASS may stand only after a code that is the token's for the counter that passes, with this counter inside the window (RFC 4226,
/// section 7.4, and RFC 6238, sections 5.2 and 6); or after two codes in a row that are the token's for the counter before it and
/// for it, inside the window for two.
pub fn each_pass_is_a_code()
    ensures { EachPassIsACode }
{}

/// No counter of an account passes twice in a log: of two passes of one account, in any sessions, the later has the greater
/// counter.
pub fn counters_rise()
    ensures { CountersRise }
{}

/// No counter of an account is used twice in a log: the counters of its codes that passed (both, for two codes in a row) rise.
pub fn no_counter_is_used_twice()
    ensures { NoCounterIsUsedTwice }
{}

/// After a valid login, the code of the next counter of a HOTP token passes if failures do not lock it and its counters are not
/// used up: a log with that pass is clean.
pub fn next_hotp_code_passes()
    ensures { NextHotpCodePasses }
{}

/// After a valid login, the next two codes in a row of a HOTP token pass with the counter of the second if failures do not lock it
/// and its counters are not used up: a log with that pass is clean.
pub fn next_two_hotp_codes_pass()
    ensures { NextTwoHotpCodesPass }
{}
