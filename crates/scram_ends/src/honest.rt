//! The law that honest logins succeed: it connects the client's contracts with the server's.
ghost use Rattle.scram_ends.specs.Laws.{HonestLogsIn};

/// An honest client logs in. Let the account's keys be those of the password, let the server have challenged the client, and let
/// the name to act as be allowed. Then acceptance is due, with the signature that the client expects; the message due contains it;
/// and the four messages are a valid login.
///
/// What `Client::start` and `ClientOne::first` append is honest in this sense, and what `ServerWait::finish` appends is the message
/// due. The function itself does nothing.
pub fn honest_login()
    ensures { HonestLogsIn }
{}
