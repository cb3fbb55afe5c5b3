//! What a server takes from a client-first message: `n,a=root,n=user,r=abc` has the gs2-header `n,a=root,`, the bare message
//! `n=user,r=abc`, the name `user` and the name to act as, `root`.
//!
//! Names are 1 to 255 bytes from 0x20 to 0x7E, which SASLprep (RFC 4013) leaves as they are; others are refused. So is the flag `p=`,
//! since no channel binding is offered.
ghost use Rattle.std.specs.Prelude.{◌≡◌, ◌≤◌, ℕ, List, length, codes, IfOk, IfErr, IfSome, IfNone, ◌++◌};
ghost use Rattle.std.specs.Bool.{OnTrue, OnFalse};
ghost use Rattle.std.specs.declared.option.Option.{Option};
ghost use Rattle.scram_text.specs.Limits.{max_nonce_part_len};
ghost use Rattle.scram_text.specs.Messages.{ClientFirstParts, IsClientFirst};
ghost use Rattle.scram_text.specs.Shown.{flag_text};
ghost use Rattle.scram_ends.specs.Opening.{IsNameOf, IsAuthzidOf, IsUnbound, IsTakenUp};
ghost use Rattle.scram_ends.specs.First.{IsRefusedWith};
ghost use Rattle.scram_ends.specs.inner.TakenFirst.{ShowsTakenFirst};
ghost use Rattle.scram_ends.specs.Faults.{first_fault_number};
ghost use Rattle.scram_ends.specs.declared.lengths.TheConstants.{MAX_HEADER_LEN};
ghost use Rattle.scram_ends.specs.declared.first.FirstFault.TheVariants.{Text};

use scram_text::{Flag, PlainName, SaslText, TextFault, read_client_first};
use thiserror::Error;

/// Why a client-first message is refused: the first of these that applies.
#[derive(Clone, Copy, Debug, PartialEq, Eq, Error)]
pub enum FirstFault {
    /// 20: the text is not a client-first message; this is its first fault.
    #[error("not a client-first message: {0}")]
    Text(TextFault),

    /// 21: the message begins with `m=` or an extension is named `m`.
    #[error("mandatory extensions are not supported: send none named `m`")]
    Mandatory,

    /// 22: the flag is `p=`: the client asks for a channel binding.
    #[error("channel binding is not offered: send the flag `n` or `y`")]
    BindingAsked,

    /// 23: the name or the name to act as is not 1 to 255 bytes from 0x20 to 0x7E.
    #[error("a name is not 1 to 255 bytes from space to tilde")]
    OutsideProfile,
}

impl FirstFault {
    /// The number of the refusal, 20 to 23.
    pub fn number(&self) -> u16
        ensures { result ≡ first_fault_number self.now }
    {
        match self {
            FirstFault::Text(_) => 20,
            FirstFault::Mandatory => 21,
            FirstFault::BindingAsked => 22,
            FirstFault::OutsideProfile => 23,
        }
    }
}

impl From<TextFault> for FirstFault {
    ghost from_gives = { λ fault f. f ≡ Text fault };

    fn from(fault: TextFault) -> FirstFault {
        FirstFault::Text(fault)
    }
}

/// The name in a client-first message, in plain bytes: the server looks up the account of this name. Errors: the first of these
/// that applies:
/// - 20 Text: the text is not a client-first message;
/// - 21 Mandatory: it asks for a mandatory extension;
/// - 22 BindingAsked: its flag is `p=`;
/// - 23 OutsideProfile: the name or the name to act as is not 1 to 255 bytes from 0x20 to 0x7E.
pub fn first_name(client_first: &[u8]) -> Result<PlainName, FirstFault>
    ensures ok { IfOk result (λ name. (first : ClientFirstParts) × (authzid : Option (List ℕ))
        × IsClientFirst client_first.now first × IsTakenUp first name authzid) }
    ensures err { IfErr result (λ fault. IsRefusedWith client_first.now fault) }
{
    Ok(take_up(client_first)?.name)
}

/// What a server takes from a client-first message. Its slices are parts of the message.
#[derive(Drop)]
pub(crate) struct TakenFirst<'a> {
    pub(crate) header: &'a [u8],
    pub(crate) bare: &'a [u8],
    pub(crate) nonce: &'a [u8],
    pub(crate) name: PlainName,
    pub(crate) authzid: Option<PlainName>,
}

/// Reads the message, with the errors of `first_name`.
#[tactic(auto, using(scram_text::proofs::lemmas::FirstUnmet::found_is_first))]
pub(crate) fn take_up(client_first: &[u8]) -> Result<TakenFirst<'_>, FirstFault>
    ensures ok { IfOk result (λ taken. (first : ClientFirstParts) × IsClientFirst client_first.now first
        × ShowsTakenFirst taken first) }
    ensures nonce { IfOk result (λ taken. length taken.nonce.now ≤ max_nonce_part_len) }
    ensures header { IfOk result (λ taken. length taken.header.now ≤ MAX_HEADER_LEN) }
    ensures err { IfErr result (λ fault. IsRefusedWith client_first.now fault) }
{
    let message = read_client_first(client_first)?;
    if message.mandatory {
        return Err(FirstFault::Mandatory);
    }
    if !is_unbound(&message.flag) {
        return Err(FirstFault::BindingAsked);
    }
    let Some((name, authzid)) = names_of(&message.name, &message.authzid) else {
        return Err(FirstFault::OutsideProfile);
    };
    Ok(TakenFirst {
        header: message.header,
        bare: message.bare,
        nonce: message.nonce,
        name,
        authzid,
    })
}

/// Whether the flag is `n` or `y`.
pub(crate) fn is_unbound(flag: &Flag<'_>) -> bool
    ensures unbound { OnTrue result (IsUnbound (flag_text flag.now)) }
    ensures bound { OnFalse result ((binding : List ℕ) × (flag_text flag.now ≡ codes "p=" ++ binding)) }
{
    match flag {
        Flag::NoBinding | Flag::NotOffered => true,
        Flag::Binding(_) => false,
    }
}

// The names that are spelled, or None if one is not plain.
fn names_of(
    name: &SaslText<'_>,
    authzid: &Option<SaslText<'_>>,
) -> Option<(PlainName, Option<PlainName>)>
    ensures some { IfSome result (λ names. IsNameOf names.0 name.now × IsAuthzidOf names.1 authzid.now) }
    ensures none { IfNone result ((plain : List ℕ) (act_as : Option (List ℕ)) → IsNameOf plain name.now
        → IsAuthzidOf act_as authzid.now → ⊥) }
{
    let plain = plain_of(name)?;
    match authzid {
        None => Some((plain, None)),
        Some(spelled) => Some((plain, Some(plain_of(spelled)?))),
    }
}

// The name that is spelled, or None if it is not plain.
fn plain_of(spelled: &SaslText<'_>) -> Option<PlainName>
    ensures some { IfSome result (λ name. IsNameOf name spelled.now) }
    ensures none { IfNone result ((name : List ℕ) → IsNameOf name spelled.now → ⊥) }
{
    spelled.plain()
}
