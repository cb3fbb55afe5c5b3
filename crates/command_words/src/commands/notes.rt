//! The texts at the end of the help: the exit statuses of the program, and notes and an example for each command. An example runs
//! as it stands, once the examples that it names have run. All its files are in a folder that nobody else can enter.

/// The exit statuses, at the end of the program's help.
pub(crate) const STATUSES: &str = "Exit status:
  0  done, passed or clean
  1  something was refused or is at fault, such as a login, a code, a book or a log
  2  wrong usage, an invalid option value, or an input line that cannot be a password
  3  a file, a socket, the input or the output failed, or memory ran out

`scramotp COMMAND --help` shows the options of a command, and an example.
The form of a book, recipes and the causes of faults are in docs/ of the sources.";

pub(crate) const KEYS_NOTES: &str =
    "Prints `stored=` and `server=`, each followed by a key in hexadecimal. The password is the first
line of standard input, 1 to 1024 printable ASCII characters. It is visible if you type it at a
terminal.

Example:
  echo pencil | scramotp keys --mechanism SCRAM-SHA-1 \\
      --salt 4125c247e43ab1e93c6dff76 --count 4096";

pub(crate) const CODE_NOTES: &str =
    "With --counter, prints an HOTP code, made with SHA-1. Otherwise --moment is required, and the code
is a TOTP code. Standard input is not read.

Other users of the machine can see a command's arguments while it runs (with `ps`), so do not pass a
secret that they must not learn.

Examples:
  scramotp code --secret 3132333435363738393031323334353637383930 --counter 0
  scramotp code --secret 3132333435363738393031323334353637383930 --digits 8 --moment 59";

pub(crate) const ENROL_NOTES: &str =
    "The password is the first line of standard input, 1 to 1024 printable ASCII characters. It is
visible if you type it at a terminal. Prints `enrolled` and the name after the book has been saved.

If the book does not exist, it is created as a file that only its owner can read and write. Only you
and root should have write access to its folder and to every folder above it.

The account gets keys for SCRAM-SHA-1 and SCRAM-SHA-256, each with a random salt of 16 bytes.

To hide which names have accounts, a login under any other name is also sent a salt of 16 bytes and
an iteration count: the book's decoy_count, which is 4096 in a new book. If you use another --count,
set decoy_count to the same number. Otherwise the count shows which names have accounts.

Example:
  mkdir -m 0700 logins
  echo pencil | scramotp enrol --book logins/book.toml --name user";

pub(crate) const VERIFY_NOTES: &str =
    "Each line of standard input is an attempt. Prints one line for each, with the value of --moment:

  PASS MOMENT COUNTER  it passed, with the code of this counter
  FAIL MOMENT          it failed
  LOCKED MOMENT        the token is locked, so nothing passes until `scramotp unlock`

PASS and FAIL are printed after the book has been saved. LOCKED saves nothing. The run holds the
book until it ends. Other runs wait for the book, up to 30 seconds.

Exit status 0 means that every attempt passed, and is also the status if there was none. So do not
let anyone in because of the status: look for PASS.

An attempt such as `SYNC 399871 520489`, with two codes in a row, is for an HOTP token that has run
ahead of the book. It passes if the first code is that of the counter `next`, or of one of the
`sync_ahead` counters after it, and the second code is that of the following counter.

Only you and root should have write access to the book's folder and to every folder above it.

Example, after that of enrol: a token, and its first code
  # while nothing else uses the book
  echo '[accounts.user.token]
    kind = \"hotp\"
    secret = \"3132333435363738393031323334353637383930\"
    digits = 6
    next = 0
    look_ahead = 5
    limit = 3
    failures = 0' >>logins/book.toml
  echo 755224 | scramotp verify --book logins/book.toml --name user --moment \"$(date +%s)\"";

pub(crate) const UNLOCK_NOTES: &str =
    "A token is locked when as many attempts in a row have failed as its `limit` says. Prints `unlocked`
and the name after the book has been saved. Standard input is not read.

Only you and root should have write access to the book's folder and to every folder above it.

Example, after those of enrol and verify:
  scramotp unlock --book logins/book.toml --name user";

pub(crate) const AUDIT_NOTES: &str =
    "The book must be a copy from when the log began, because codes change the book. It is read without a
lock, and no file is written. Standard input is read only if the log is /dev/stdin.

Prints `clean` and the numbers of sessions, of accepted logins and of PASS lines (one for two codes
in a row). If the log is not clean, prints the number of the first line at fault and the reason. If
that line has a wrong outcome or reply, prints the right one too.

Exit status 0 means that the log is clean; 1, that a line is at fault, that there are more than
1000000 lines, or that the book is invalid; 3, among others, that the log cannot be read.

Example, after that of enrol: a log whose client leaves at once
  printf '%s\\n' 'SCRAMLOG 1' 'S MECHS SCRAM-SHA-256 SCRAM-SHA-1' 'C GONE' E >logins/log.txt
  scramotp audit --book logins/book.toml --log logins/log.txt";

pub(crate) const REPORT_NOTES: &str =
    "Checks the log as `audit` does, and prints a row for each line that decided something, as soon as
the line has been found right. The last line and the exit status are those of `audit`. Of a line at
fault, and of all after it, there are no rows. A row is words with a space between each two:

  LINE SESSION EVENT ACCOUNT ACTS_AS MECHANISM REASON

LINE is the number of the line, SESSION that of its session. ACCOUNT is the name that the client
gave, whether or not there is such an account, and ACTS_AS the name that it asked to act as. In a
name, a space is `%20`. `-` stands for what there is none of. These are the events, with what REASON
is:

  accepted  -
  refused   mechanism, grammar, mandatory, binding or name, of the client's first message; encoding,
            extensions, nonce, channel, no-account, no-keys, proof or acts-as, of its last one;
            aborted or bad-line, if the client ended the session
  passed    the time and the counter of the code, or both counters of two codes in a row
  failed    the time, and `spent` if the code is an old one: of HOTP one of the 1000 counters before
            the next one, of TOTP one in the window; else `-`
  locked    the time of a code that came while the token was locked
  no-token  the time of a code for an account without a token
  left      -, for a client that went away before an outcome
  busy      -, for a session that was turned away
  halted    -, when the server could not save

Keep the rows as secret as the log: a client is never told what no-account and no-keys say.

Example, after those of enrol and audit: a client that left at once
  scramotp report --book logins/book.toml --log logins/log.txt --event left";

pub(crate) const UPGRADE_NOTES: &str =
    "A log of version 2 begins with `SCRAMLOG 2`. Each other line begins with the number of its session,
counted from 1. In version 1 a session ends with its `E` line.

Audited with the same book, the new log is clean if and only if the old one is. Lines may be at
fault, but each must have the form of a log line. If one does not, its number and the reason go to
standard error, as `audit` prints them, and nothing else is printed.

The whole log is read, up to 1000000 lines, before anything is printed. Standard input is read only
if the log is /dev/stdin.

Example, after those of enrol and audit: the log with numbers
  scramotp upgrade --log logins/log.txt >logins/log2.txt
  scramotp audit --book logins/book.toml --log logins/log2.txt";

pub(crate) const LOGIN_NOTES: &str =
    "The first line of standard input is the password. Each line after it is a code, which is sent once
the client is logged in. A line such as `SYNC 399871 520489` is two codes in a row. All input is
visible if you type it at a terminal.

Both ends run in this command: a server with the book, and a client. They talk through a socket,
which is created for this run and removed at its end. Put it into a folder that nobody else can
enter. The file must not exist yet: remove a socket that a killed run has left. The client knows
only what the server sends, and ends the login unless the server proves that it has the account's
keys.

Prints the server's log. What a code changes in the book is saved before the reply is printed, and
each reply is printed before the client receives it. The run holds the book until it ends. Other
runs wait for the book, up to 30 seconds.

Exit status 0 means that the login was accepted and every code passed.

Each nonce that is not given is made from 18 random bytes. Give nonces only to repeat a recorded
login.

Only you and root should have write access to the book's folder and to every folder above it.

Example, after those of enrol and verify: a login and a code, and the audit of its log
  cp logins/book.toml logins/before.toml
  printf '%s\\n' pencil 287082 |
      scramotp login --book logins/book.toml --name user --socket logins/socket >logins/login.txt
  scramotp audit --book logins/before.toml --log logins/login.txt";

pub(crate) const HALL_NOTES: &str = "Each line of standard input is an event:

  open NONCE          a client connects; NONCE is the server's part of the nonce, new and random for
                      each client
  line N MOMENT TEXT  the client of session N sends a line; TEXT is the line without its LF, and may
                      hold any other byte; MOMENT is the time in seconds since 1970
  gone N MOMENT       the client of session N disconnects, or you end its session

Sessions are numbered 1, 2 and so on, in the order in which clients connect. Up to 64 can be open. A
client that connects while 64 are open gets the reply BUSY. Any other input line, or an event for a
session that is not open, is a bad event: it ends the run with exit status 1.

Prints the log, in version 2. All lines for an event are printed before the next event is read. Send
the client of session N the rest of each line that begins with `N S `. What a code changes in the
book is saved before the reply is printed. The run holds the book until it ends. Other runs wait for
the book, up to 30 seconds.

The run ends with the fault `cannot read input` once its events have more than 16777216 bytes in
all. So begin a new run in good time.

If the book cannot be saved after a code, the run ends, and the last line of the log is `N S HALT`
for that client. If it cannot be saved at the start, nothing is printed.

Only you and root should have write access to the book's folder and to every folder above it.

Example, after that of enrol: two clients at a time, and the audit of their log
  cp logins/book.toml logins/opened.toml
  printf '%s\\n' 'open 3rfcNHYJY1ZVvWVs7j' 'open hvYDpWUa2RaTCAfuxFIl' 'line 2 5 ABORT' 'gone 1 6' |
      scramotp hall --book logins/book.toml >logins/hall.txt
  scramotp audit --book logins/opened.toml --log logins/hall.txt";
