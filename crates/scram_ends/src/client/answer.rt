//! The client's answer to a challenge: client-final with the proof, for example
//! `c=biws,r=fyko+d2lbbFgONRv9qkxdawL3rfcNHYJY1ZVvWVs7j,p=v0X8v3Bz2T0CJGbJQyF0X+HI4Ts=`.
ghost use Rattle.std.specs.Prelude.{◌≡◌, ◌≤◌, ◌<◌, ◌+◌, ℕ, List, ◌++◌, length, slice_index, IfOk, IfErr, OnOk, IsOk};
ghost use Rattle.mac_core.specs.Mechanism.{hmac_by, digest_len_by};
ghost use Rattle.scram_text.specs.Limits.{max_nonce_len};
ghost use Rattle.scram_text.specs.Class.{IsNonce};
ghost use Rattle.scram_text.specs.Messages.{ClientFirstParts, client_first_bare, ServerFirstParts, IsServerFirst};
ghost use Rattle.scram_text.specs.Shown.{ShowsServerFirst};
ghost use Rattle.scram_text.specs.Appended.{LeavesOnErr, LacksRoom};
ghost use Rattle.scram_ends.specs.Stages.{Started, answered_login};
ghost use Rattle.scram_ends.specs.Auth.{auth_to_challenge, proof_of, expected_signature};
ghost use Rattle.scram_ends.specs.Honest.{IsHonest, max_honest_final_len};
ghost use Rattle.scram_ends.specs.Client.{StandsForStarted, IsAnswerable, IsAnswer, StandsForAnswered, IsChallengeFault, IsUnspent, IfSpent, IfBack};

use crate::client::{ClientAnswer, ClientFault, ClientOne, ClientTwo, OneRefused};
use crate::signing::running_mac;
use mac_core::{Tag, law_of_bytes, xor};
use scram_text::{ClientFinalWithoutProof, Password, ServerFirst, WriteFault, read_server_first};
use std::alloc::Allocator;

impl ClientOne {
    /// Answers the challenge `server_first` (RFC 5802, section 3): appends the client-final message with the proof of `password` to
    /// `out`, at most 1592 bytes. If nothing is wrong with the challenge, this takes time in proportion to its
    /// iteration count.
    ///
    /// Errors: Back has 99 NoMemory, only if `out` had no room reserved for the message. Spent has the first of these that applies:
    /// - 24 Text: the text is not a server-first message;
    /// - 25 Mandatory: it asks for a mandatory extension;
    /// - 26 NonceNotMine: its nonce does not begin with the client's;
    /// - 27 NonceNotLonger: its nonce is the client's with nothing added;
    /// - 28 CountOutside: its count is outside the limits.
    ///
    /// After an error `out` is unchanged.
    pub fn first<A: Allocator>(
        self,
        password: &Password,
        server_first: &[u8],
        out: &mut Vec<u8, A>,
    ) -> Result<ClientTwo, OneRefused>
        ensures ok { IfOk result (λ two. (l : Started) → StandsForStarted self l
            → (client_final : List ℕ) × (out.new.items ≡ out.old.items ++ client_final)
            × StandsForAnswered two (answered_login l password.now server_first.now client_final)) }
        ensures leaves { LeavesOnErr result out.old out.new }
        ensures most_bytes { (l : Started) → StandsForStarted self l → length out.new.items ≤ length out.old.items + max_honest_final_len }
        // If it is answered, or its answer could not be written, it is a challenge to this client with nothing wrong.
        ensures answerable { IsUnspent result → (l : Started) → StandsForStarted self l
            → (challenge : ServerFirstParts) × IsAnswerable l.limits l.nonce server_first.now challenge }
        // Each challenge with nothing wrong is answered, or its answer could not be written.
        ensures every { (l : Started) (challenge : ServerFirstParts) → StandsForStarted self l
            → IsAnswerable l.limits l.nonce server_first.now challenge → IsUnspent result }
        ensures spent { IfSpent result (λ fault. (l : Started) → StandsForStarted self l
            → IsChallengeFault l.limits l.nonce server_first.now fault) }
        // If there was no room, the client is handed back unchanged.
        ensures back { IfBack result (λ client _. client ≡ self) }
        ensures no_memory { IfBack result (λ _ fault. (l : Started) → StandsForStarted self l
            → (fault ≡ WriteFault.NoMemory) × ((client_final : List ℕ)
            × IsHonest (answered_login l password.now server_first.now client_final)
            × LacksRoom out.old client_final)) }
    {
        let challenge = match self.read_challenge(server_first) {
            Ok(challenge) => challenge,
            Err(fault) => return Err(OneRefused::Spent(fault)),
        };
        match self.append_answer(password, server_first, &challenge, out) {
            Ok(two) => Ok(two),
            Err(fault) => Err(OneRefused::Back(self, fault)),
        }
    }

    // Reads the challenge, or returns what is wrong with it.
    #[tactic(auto, using(scram_text::proofs::lemmas::FirstUnmet::found_is_first))]
    fn read_challenge<'a>(&self, server_first: &'a [u8]) -> Result<ServerFirst<'a>, ClientFault>
        ensures ok { IfOk result (λ challenge. (p : ServerFirstParts) × ShowsServerFirst challenge p
            × IsAnswerable self.now.limits self.now.nonce.items server_first.now p) }
        ensures err { IfErr result (λ fault. IsChallengeFault self.now.limits self.now.nonce.items
            server_first.now fault) }
    {
        let challenge = read_server_first(server_first)?;
        if challenge.mandatory {
            return Err(ClientFault::Mandatory);
        }
        let Some(more) = challenge.nonce.strip_prefix(self.nonce.as_slice()) else {
            return Err(ClientFault::NonceNotMine);
        };
        if more.is_empty() {
            return Err(ClientFault::NonceNotLonger);
        }
        if challenge.count < self.limits.least || self.limits.most < challenge.count {
            return Err(ClientFault::CountOutside);
        }
        Ok(challenge)
    }

    /// As `first`, but it takes no memory: the answer is in fixed buffers. Errors: 24 to 28, as `first` has them.
    pub fn answer(
        &self,
        password: &Password,
        server_first: &[u8],
    ) -> Result<ClientAnswer, ClientFault>
        ensures ok { IfOk result (λ answer. (l : Started) → StandsForStarted self.now l
            → (client_final : List ℕ) × IsAnswer answer (answered_login l password.now server_first.now client_final)) }
        // It is answered if and only if it is a challenge to this client with nothing wrong.
        ensures answerable { OnOk result ((l : Started) → StandsForStarted self.now l
            → (challenge : ServerFirstParts) × IsAnswerable l.limits l.nonce server_first.now challenge) }
        ensures every { (l : Started) (challenge : ServerFirstParts) → StandsForStarted self.now l
            → IsAnswerable l.limits l.nonce server_first.now challenge → IsOk result }
        ensures err { IfErr result (λ fault. (l : Started) → StandsForStarted self.now l
            → IsChallengeFault l.limits l.nonce server_first.now fault) }
    {
        match self.read_challenge(server_first) {
            Ok(challenge) => Ok(self.composed(password, server_first, &challenge)),
            Err(fault) => Err(fault),
        }
    }

    // Appends the client-final message to `out`.
    fn append_answer<A: Allocator>(
        &self,
        password: &Password,
        server_first: &[u8],
        challenge: &ServerFirst<'_>,
        out: &mut Vec<u8, A>,
    ) -> Result<ClientTwo, WriteFault>
        requires { (1 ≤ challenge.now.count) × IsNonce max_nonce_len challenge.now.nonce.now }
        ensures ok { IfOk result (λ two. (l : Started) (p : ServerFirstParts) → StandsForStarted self.now l
            → IsServerFirst server_first.now p → ShowsServerFirst challenge.now p
            → (client_final : List ℕ) × (out.new.items ≡ out.old.items ++ client_final)
            × StandsForAnswered two (answered_login l password.now server_first.now client_final)) }
        ensures leaves { LeavesOnErr result out.old out.new }
        ensures no_memory { IfErr result (λ fault. (l : Started) (p : ServerFirstParts) → StandsForStarted self.now l
            → IsServerFirst server_first.now p → ShowsServerFirst challenge.now p
            → (fault ≡ WriteFault.NoMemory) × ((client_final : List ℕ)
            × IsHonest (answered_login l password.now server_first.now client_final)
            × LacksRoom out.old client_final)) }
    {
        let answer = self.composed(password, server_first, challenge);
        answer.without_proof.write_with_proof(&answer.proof, out)?;
        Ok(ClientTwo {
            expected: answer.expected,
        })
    }

    // The answer to a challenge.
    fn composed(
        &self,
        password: &Password,
        server_first: &[u8],
        challenge: &ServerFirst<'_>,
    ) -> ClientAnswer
        requires { (1 ≤ challenge.now.count) × IsNonce max_nonce_len challenge.now.nonce.now }
        ensures { (l : Started) (p : ServerFirstParts) → StandsForStarted self.now l
            → IsServerFirst server_first.now p → ShowsServerFirst challenge.now p
            → (client_final : List ℕ) × IsAnswer result (answered_login l password.now server_first.now client_final) }
    {
        let header = self.header.as_slice();
        law_of_bytes(header);
        let Ok(without_proof) = ClientFinalWithoutProof::new(header, challenge.nonce, b"") else {
            unreachable!()
        };
        let proved = self.prove(password, server_first, challenge, without_proof.as_slice());
        ClientAnswer {
            without_proof,
            proof: proved.proof,
            expected: proved.expected,
        }
    }

    // The proof, and the signature to expect.
    fn prove(
        &self,
        password: &Password,
        server_first: &[u8],
        challenge: &ServerFirst<'_>,
        client_final_without_proof: &[u8],
    ) -> ProofAndSignature
        requires { 1 ≤ challenge.now.count }
        ensures proof { (first : ClientFirstParts) → self.now.bare.items ≡ client_first_bare first
            → result.proof.items ≡ proof_of self.now.mechanism password.now challenge.now.salt
            challenge.now.count (auth_to_challenge first server_first.now ++ client_final_without_proof.now) }
        ensures expected { (first : ClientFirstParts) → self.now.bare.items ≡ client_first_bare first
            → result.expected.items ≡ expected_signature self.now.mechanism password.now challenge.now.salt
            challenge.now.count (auth_to_challenge first server_first.now ++ client_final_without_proof.now) }
        ensures len { length result.proof.items ≡ digest_len_by self.now.mechanism }
        ensures bytes { (i : ℕ) → slice_index result.proof.items i < 256 }
    {
        let mechanism = self.mechanism;
        let salted = mechanism.hi(password.bytes(), challenge.salt.bytes(), challenge.count);
        let client_key = mechanism.client_key(&salted);
        let stored_key = mechanism.stored_key(&client_key);
        let signature = self.sign(&stored_key, server_first, client_final_without_proof);
        let proof = xor(&client_key, &signature);
        law_of_bytes(proof.as_slice());
        let server_key = mechanism.server_key(&salted);
        ProofAndSignature {
            proof,
            expected: self.sign(&server_key, server_first, client_final_without_proof),
        }
    }

    // The HMAC of AuthMessage under the key (RFC 5802, section 3).
    fn sign(&self, key: &Tag, server_first: &[u8], client_final_without_proof: &[u8]) -> Tag
        ensures value { (first : ClientFirstParts) → self.now.bare.items ≡ client_first_bare first
            → result.items ≡ hmac_by self.now.mechanism key.now.items
            (auth_to_challenge first server_first.now ++ client_final_without_proof.now) }
        ensures len { length result.items ≡ digest_len_by self.now.mechanism }
    {
        let mut mac = running_mac(self.mechanism, key, self.bare.as_slice(), server_first);
        mac.add(client_final_without_proof);
        mac.done()
    }
}

// ClientProof, and the ServerSignature that the client expects (RFC 5802, section 3).
#[derive(Drop)]
struct ProofAndSignature {
    proof: Tag,
    expected: Tag,
}
