//! The client's end of a login: what it sends next, depending on what it has received.
ghost use Rattle.std.specs.Prelude.{◌≡◌, ◌≢◌, [], ◌∷◌, ◌++◌, codes, IfOk, IfErr};
ghost use Rattle.std.specs.Str.{byte};
ghost use Rattle.scram_text.specs.Messages.{ServerFirstParts};
ghost use Rattle.scram_ends.specs.Client.{StandsForStarted, IsAnswerable, StandsForAnswered};
ghost use Rattle.scram_ends.specs.Login.{IsAuthentic};
ghost use Rattle.scram_ends.specs.Stages.{Started, Answered};
ghost use Rattle.scram_ends.specs.{name_of, Mechanism};
ghost use Rattle.log_grammar.specs.Payload.{escaped};
ghost use Rattle.commands.specs.ClientEnd.{IsChosen};
ghost use Rattle.commands.specs.inner.ClientSteps.{IfSays, BeginsLogin, AnswersChallenge, MaySay, ShowsKeys, HasToLeave};

use command_line::Fault;
use sasl_log::{Line, Payload, ServerLine, read_line, word, write_message_line};
use scram_ends::{Client, ClientOne, ClientTwo, Limits, Mechanism, OneRefused};
use scram_text::{NoncePart, Password, PlainName};
use std::alloc::Global;
use std::mem;

/// Who logs in, and how.
#[derive(Drop)]
pub(crate) struct User {
    /// The mechanism, or None for the best one offered.
    pub(crate) mechanism: Option<Mechanism>,

    /// The name of the account that the user logs in to.
    pub(crate) name: PlainName,

    /// The name to act as (the authzid of RFC 5802), if one is given.
    pub(crate) authzid: Option<PlainName>,
}

/// What a client does next.
#[derive(Drop)]
pub(crate) enum Next {
    /// It sends this line, which ends in an LF.
    Says(Vec<u8>),

    /// It is logged in: the server has shown that it has the account's keys.
    LoggedIn,

    /// It ends the login.
    Leaves,
}

// The stage of a login, seen from the client.
#[derive(Drop)]
enum Stage {
    // The client has sent nothing yet.
    Silent,

    // It has sent its first message, and waits for the challenge.
    Begun(ClientOne),

    // It has sent its proof, and waits for the server's signature.
    Proved(ClientTwo),

    // It has logged in, or ended the login.
    Ended,
}

/// A client that logs a user in.
#[derive(Drop)]
pub(crate) struct ClientEnd {
    user: User,
    password: Password,
    nonce: NoncePart,
    stage: Stage,
}

impl ClientEnd {
    /// A client for this user that has sent nothing yet. The nonce should be a fresh random one.
    pub(crate) fn new(user: User, password: Password, nonce: NoncePart) -> ClientEnd
        ensures user { result.user ≡ user }
        ensures nonce { result.nonce ≡ nonce }
        ensures password { result.password ≡ password }
        ensures silent { result.stage ≡ Stage.Silent }
    {
        ClientEnd {
            user,
            password,
            nonce,
            stage: Stage::Silent,
        }
    }

    /// Returns what the client does after the server has sent `line`, which is given without its LF. It leaves if another line was
    /// due, or if it finds an error in the server's message (RFC 5802, section 5). The only fault is NoMemory.
    pub(crate) fn hear(&mut self, alloc: Global, line: &[u8]) -> Result<Next, Fault>
        ensures kept { (self.new.user ≡ self.old.user) × (self.new.nonce ≡ self.old.nonce) × (self.new.password ≡ self.old.password) }
        ensures is_in { IfOk result (λ next. next ≡ Next.LoggedIn → ShowsKeys self.old.stage line.now) }
        ensures says { IfOk result (λ next. IfSays next (λ said. MaySay self.old self.old.stage line.now said self.new.stage)) }
        ensures leaves { IfOk result (λ next. next ≡ Next.Leaves → HasToLeave self.old.user self.old.stage line.now) }
        ensures err { IfErr result (λ fault. fault ≡ Fault.NoMemory) }
    {
        let Ok(Line::FromServer(received)) = read_line(line) else {
            return Ok(Next::Leaves);
        };
        match (mem::replace(&mut self.stage, Stage::Ended), received) {
            (Stage::Silent, ServerLine::Mechs(names)) => self.send_first(alloc, names),
            (Stage::Begun(client), ServerLine::Cont(message)) => {
                let challenge = message.bytes(alloc).map_err(|_| Fault::NoMemory)?;
                self.send_final(alloc, client, challenge.as_slice())
            }
            (Stage::Proved(client), ServerLine::Accepts(message)) => check_signature(
                alloc, client, message,
            ),
            _ => Ok(Next::Leaves),
        }
    }

    // Chooses one of the mechanisms with these names, and sends it with the client's first message.
    fn send_first(&mut self, alloc: Global, names: &[u8]) -> Result<Next, Fault>
        ensures kept { (self.new.user ≡ self.old.user) × (self.new.nonce ≡ self.old.nonce) × (self.new.password ≡ self.old.password) }
        ensures not_in { IfOk result (λ next. next ≢ Next.LoggedIn) }
        ensures says { IfOk result (λ next. IfSays next (λ said. BeginsLogin self.old.user self.old.nonce names.now said self.new.stage)) }
        ensures leaves { IfOk result (λ next. next ≡ Next.Leaves
            → (mechanism : Mechanism) → IsChosen self.old.user.mechanism names.now mechanism → ⊥) }
        ensures err { IfErr result (λ fault. fault ≡ Fault.NoMemory) }
    {
        let user = &self.user;
        let Some(mechanism) = user.mechanism.or(Mechanism::choose(names)) else {
            return Ok(Next::Leaves);
        };
        let (name, authzid, nonce) = (&user.name, user.authzid.as_ref(), &self.nonce);
        let mut message = Vec::new(alloc);
        let limits = Limits::usual();
        let Ok(client) = Client::start(mechanism, name, authzid, nonce, limits, &mut message) else {
            return Err(Fault::NoMemory);
        };
        self.stage = Stage::Begun(client);
        let words = auth_words(alloc, mechanism)?;
        Ok(Next::Says(message_line(alloc, words.as_slice(), message.as_slice())?))
    }

    // Answers a challenge with the proof.
    fn send_final(
        &mut self,
        alloc: Global,
        client: ClientOne,
        challenge: &[u8],
    ) -> Result<Next, Fault>
        ensures kept { (self.new.user ≡ self.old.user) × (self.new.nonce ≡ self.old.nonce) × (self.new.password ≡ self.old.password) }
        ensures not_in { IfOk result (λ next. next ≢ Next.LoggedIn) }
        ensures says { IfOk result (λ next. IfSays next (λ said. (login : Started) → StandsForStarted client login
            → AnswersChallenge login self.old.password challenge.now said self.new.stage)) }
        ensures leaves { IfOk result (λ next. next ≡ Next.Leaves → (login : Started) → StandsForStarted client login
            → (parts : ServerFirstParts) → IsAnswerable login.limits login.nonce challenge.now parts → ⊥) }
        ensures err { IfErr result (λ fault. fault ≡ Fault.NoMemory) }
    {
        let mut message = Vec::new(alloc);
        match client.first(&self.password, challenge, &mut message) {
            Ok(client) => {
                self.stage = Stage::Proved(client);
                Ok(Next::Says(message_line(alloc, word::RESP, message.as_slice())?))
            }
            Err(OneRefused::Spent(_)) => Ok(Next::Leaves),
            Err(OneRefused::Back(_, _)) => Err(Fault::NoMemory),
        }
    }
}

// Checks the server's signature in the message by which it accepts the client, and returns LoggedIn or Leaves.
fn check_signature(alloc: Global, client: ClientTwo, message: Payload<'_>) -> Result<Next, Fault>
    ensures is_in { IfOk result (λ next. next ≡ Next.LoggedIn
        → (login : Answered) (expecting : StandsForAnswered client login)
        → IsAuthentic message.entry expecting.signature) }
    ensures silent { IfOk result (λ next. IfSays next (λ said. ⊥)) }
    ensures leaves { IfOk result (λ next. next ≡ Next.Leaves
        → (login : Answered) (expecting : StandsForAnswered client login)
        → IsAuthentic message.entry expecting.signature → ⊥) }
    ensures err { IfErr result (λ fault. fault ≡ Fault.NoMemory) }
{
    let Ok(last) = message.bytes(alloc) else {
        return Err(Fault::NoMemory);
    };
    match client.last(last.as_slice()) {
        Ok(_) => Ok(Next::LoggedIn),
        Err(_) => Ok(Next::Leaves),
    }
}

// What precedes a client-first message in its line: `AUTH` and the name of the mechanism. The only fault is NoMemory.
fn auth_words(alloc: Global, mechanism: Mechanism) -> Result<Vec<u8>, Fault>
    ensures ok { IfOk result (λ words. words.items ≡ codes "AUTH " ++ (name_of mechanism ++ codes " :")) }
    ensures err { IfErr result (λ fault. fault ≡ Fault.NoMemory) }
{
    let mut words = Vec::new(alloc);
    words.extend_from_slice(word::AUTH)?;
    words.extend_from_slice(mechanism.name().as_bytes())?;
    words.extend_from_slice(word::WITH_MESSAGE)?;
    Ok(words)
}

// A line with these words and this message, escaped, and an LF. The only fault is NoMemory.
fn message_line(alloc: Global, words: &[u8], message: &[u8]) -> Result<Vec<u8>, Fault>
    ensures ok { IfOk result (λ line. line.items ≡ words.now ++ (escaped message.now ++ byte "\n" ∷ [])) }
    ensures err { IfErr result (λ fault. fault ≡ Fault.NoMemory) }
{
    let mut line = Vec::new(alloc);
    write_message_line(words, message, &mut line).map_err(|_| Fault::NoMemory)?;
    Ok(line)
}
