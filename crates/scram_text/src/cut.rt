//! Cuts a message at its commas into parts, and a part into its letter and its value.
ghost use Rattle.std.specs.Prelude.{◌≡◌, ◌≤◌, ◌<◌, ◌+◌, ℕ, [], ◌∷◌, ◌++◌, length, position, count_by, List, ◌↔◌, IsTrue, IfOk, IfSome};
ghost use Rattle.std.specs.Prelude.{is_some, OnOk, IfErr, MatchOption, true, false};
ghost use Rattle.std.specs.Str.{byte};
ghost use Rattle.std.specs.Option.{option_copied};
ghost use Rattle.std.specs.declared.option.Option.{Option};
ghost use Rattle.scram_text.specs.Limits.{max_message_len};
ghost use Rattle.scram_text.specs.Class.{is_comma, IsUtf8Text};
ghost use Rattle.scram_text.specs.Name.{LacksComma};
ghost use Rattle.scram_text.specs.Parts.{parts, parts_of_some, joined, is_named, IsExtension, AreExtensions, have_mandatory};
ghost use Rattle.scram_text.specs.Parts.{mext_parts};
ghost use Rattle.scram_text.specs.Faults.{IsWholeFault, first_of, places_with_mext};
ghost use Rattle.scram_text.specs.Written.{IsExtensionText};
ghost use Rattle.scram_text.specs.inner.Pieces.{most_parts, is_attribute, IsExtensionMisfit, IsMextAndRest, IsMextMisfit};

use crate::fault::{TextFault, TextWhy};
use crate::{MAX_MESSAGE_LEN, class, field};

/// The number of parts of a message. Errors: 1 TooLong if it has more than 2048 bytes, else 2 NotText if it contains a NUL or is
/// not UTF-8.
pub(crate) fn checked_part_count(message: &[u8]) -> Result<usize, TextFault>
    ensures short { IfOk result (λ _. length message.now ≤ max_message_len) }
    ensures utf8_text { IfOk result (λ _. IsUtf8Text message.now) }
    ensures count { IfOk result (λ count. count ≡ length (parts message.now)) }
    ensures few { OnOk result (length (parts message.now) ≤ most_parts) }
    ensures fault { IfErr result (λ f. IsWholeFault message.now f) }
{
    if message.len() > MAX_MESSAGE_LEN {
        return Err(TextFault {
            part: 0,
            why: TextWhy::TooLong,
        });
    }
    if !class::is_utf8_text(message) {
        return Err(TextFault {
            part: 0,
            why: TextWhy::NotText,
        });
    }
    Ok(part_count(message))
}

// The number of parts: one more than there are commas.
#[tactic(auto, using(crate::proofs::lemmas::Parts::parts_exceed_commas_by_one))]
fn part_count(text: &[u8]) -> usize
    requires { length text.now ≤ max_message_len }
    ensures count { result ≡ length (parts text.now) }
    ensures few { result ≤ length text.now + 1 }
{
    comma_count(text) + 1
}

// The number of commas.
fn comma_count(text: &[u8]) -> usize
    ensures count { result ≡ count_by is_comma text.now }
    ensures few { result ≤ length text.now }
{
    text.iter().filter(|byte| **byte == b',').count()
}

/// The first part, and the text after its comma if there is one.
pub(crate) fn cut(text: &[u8]) -> (&[u8], Option<&[u8]>)
    ensures parts { parts text.now ≡ result.0.now ∷ parts_of_some (option_copied result.1) }
    ensures no_comma { LacksComma result.0.now }
    ensures first_len { length result.0.now ≤ length text.now }
    ensures rest_len { IfSome result.1 (λ rest. length rest.now ≤ length text.now) }
    ensures whole { IfSome result.1 (λ rest. text.now ≡ result.0.now ++ byte "," ∷ rest.now) }
{
    match comma_index(text) {
        None => (text, None),
        Some(at) => (&text[..at], Some(&text[at + 1..])),
    }
}

// The index of the first comma, or None if there is none.
fn comma_index(text: &[u8]) -> Option<usize>
    ensures { result ≡ position is_comma text.now }
{
    text.iter().position(|byte| *byte == b',')
}

/// The texts before and after the last comma, or None if there is none.
pub(crate) fn cut_last(text: &[u8]) -> Option<(&[u8], &[u8])>
    ensures whole { MatchOption result (length (parts text.now) ≡ 1)
        (λ cut. text.now ≡ cut.0.now ++ byte "," ∷ cut.1.now) }
    ensures no_comma { IfSome result (λ cut. LacksComma cut.1.now) }
    ensures front_len { IfSome result (λ cut. length cut.0.now ≤ length text.now) }
{
    let mut at = text.len();
    while at > 0 {
        at -= 1;
        if text[at] == b',' {
            return Some((&text[..at], &text[at + 1..]));
        }
    }
    None
}

/// The value of a part that is this letter, `=` and a value, or None if the part has another form.
pub(crate) fn value_named(part: &[u8], letter: u8) -> Option<&[u8]>
    ensures { MatchOption result (is_named letter part.now ≡ false)
        (λ value. part.now ≡ letter ∷ byte "=" ∷ value.now) }
{
    match part {
        [first, b'=', value @ ..] if *first == letter => Some(value),
        _ => None,
    }
}

/// Whether the part begins with this letter and `=`.
pub(crate) fn is_named(part: &[u8], letter: u8) -> bool
    ensures { result ≡ is_named letter part.now }
{
    matches!(part, [first, b'=', ..] if *first == letter)
}

// Whether the part, which has no comma, is attr-val = ALPHA "=" value: as `is_attribute`, but the clause cites the grammar.
fn is_extension(part: &[u8]) -> bool
    requires { LacksComma part.now }
    ensures { IsTrue result ↔ IsExtension part.now }
{
    is_attribute(part)
}

// Whether the part is a letter, `=`, and one byte or more.
fn is_attribute(part: &[u8]) -> bool
    ensures { result ≡ is_attribute part.now }
{
    match part {
        [letter, b'=', _, ..] => class::is_letter(*letter),
        _ => false,
    }
}

/// The extensions at the end of a message.
#[derive(Drop)]
pub(crate) struct Extensions<'a> {
    /// All of them, with the commas between them; empty if there are none.
    pub(crate) text: &'a [u8],

    /// Whether one is named `m`.
    pub(crate) mandatory: bool,
}

/// Reads the extensions at the end of a message: `text` is what follows its fixed parts, if anything does. Its first part has the
/// index `first` in the message. Errors: 12 Extension for the first part that is not an attr-val.
pub(crate) fn extensions_of(text: Option<&[u8]>, first: usize) -> Result<Extensions<'_>, TextFault>
    requires few { first + length (parts_of_some (option_copied text)) ≤ most_parts + 2 }
    ensures found { OnOk result (AreExtensions (parts_of_some (option_copied text.entry))) }
    ensures text { IfOk result (λ e. e.text.now
        ≡ joined (parts_of_some (option_copied text.entry))) }
    ensures mandatory { IfOk result (λ e. e.mandatory
        ≡ have_mandatory (parts_of_some (option_copied text.entry))) }
    ensures fault { IfErr result (λ f. IsExtensionMisfit first (parts_of_some (option_copied text.entry)) f) }
{
    let Some(text) = text else {
        return Ok(Extensions {
            text: &[],
            mandatory: false,
        });
    };
    let mandatory = check_extensions(text, first)?;
    Ok(Extensions { text, mandatory })
}

// Checks that each part is an attr-val and returns whether one is named `m`.
fn check_extensions(text: &[u8], first: usize) -> Result<bool, TextFault>
    requires few { first + length (parts text.now) ≤ most_parts + 2 }
    ensures found { OnOk result (AreExtensions (parts text.now)) }
    ensures mandatory { IfOk result (λ mandatory. mandatory ≡ have_mandatory (parts text.now)) }
    ensures fault { IfErr result (λ f. IsExtensionMisfit first (parts text.now) f) }
{
    let mut left = Some(text);
    let mut index = first;
    let mut mandatory = false;
    while let Some(rest) = left {
        let (part, more) = cut(rest);
        if !is_extension(part) {
            return Err(TextFault {
                part: index,
                why: TextWhy::Extension,
            });
        }
        mandatory |= is_named(part, b'm');
        index += 1;
        left = more;
    }
    Ok(mandatory)
}

/// The first two parts, and the text after them if there is one.
pub(crate) fn cut_two(text: &[u8]) -> (&[u8], &[u8], Option<&[u8]>)
    requires { 2 ≤ length (parts text.now) }
    ensures parts { parts text.now ≡ result.0.now ∷ result.1.now ∷ parts_of_some (option_copied result.2) }
    ensures first_len { length result.0.now ≤ length text.now }
    ensures whole { IfSome result.2 (λ rest. text.now
        ≡ result.0.now ++ byte "," ∷ (result.1.now ++ byte "," ∷ rest.now)) }
    ensures no_comma { LacksComma result.0.now }
{
    let (first, rest) = cut(text);
    let Some(rest) = rest else { unreachable!() };
    let (second, rest) = cut(rest);
    (first, second, rest)
}

/// Whether the text begins with `m=`: as `is_named`, but the clause is about the first part of the text.
pub(crate) fn begins_with_mext(text: &[u8]) -> bool
    ensures { result ≡ is_named (byte "m") (first_of (parts text.now)) }
{
    is_named(text, b'm')
}

/// The least number of parts of a message that needs `fixed` parts besides reserved-mext: one more if it has a reserved-mext.
/// `text` is the message from the place of reserved-mext on. That `fixed` is small keeps the sum from overflowing.
pub(crate) fn least_part_count(text: &[u8], fixed: usize) -> usize
    requires { fixed < 10 }
    ensures { result ≡ length (places_with_mext (parts text.now) []) + fixed }
{
    if begins_with_mext(text) {
        fixed + 1
    } else {
        fixed
    }
}

/// What follows the place of reserved-mext.
#[derive(Drop)]
pub(crate) struct AfterMext<'a> {
    /// Whether there was a reserved-mext.
    pub(crate) has_mext: bool,

    /// The text after it, or the whole text.
    pub(crate) rest: &'a [u8],

    /// The index in the message of the first part of `rest`.
    pub(crate) index: usize,
}

/// Reads reserved-mext, `m=` and a value, if there is one. The text's first part has this index in the message. Errors: 6 Mandatory
/// if the value is empty. That the index is small keeps the next one from overflowing.
pub(crate) fn mext_of(text: &[u8], index: usize) -> Result<AfterMext<'_>, TextFault>
    requires few { index < 10 }
    requires enough { is_named (byte "m") (first_of (parts text.now)) ≡ true
        → 2 ≤ length (parts text.now) }
    ensures found { IfOk result (λ m. (mext : Option (List ℕ))
        × IsMextAndRest (parts text.now) (parts m.rest.now) mext
        × (m.has_mext ≡ is_some mext) × (m.index ≡ index + length (mext_parts mext))) }
    ensures rest_len { IfOk result (λ m. length m.rest.now ≤ length text.now) }
    ensures fault { IfErr result (λ f. IsMextMisfit index (parts text.now) f) }
{
    if !begins_with_mext(text) {
        return Ok(AfterMext {
            has_mext: false,
            rest: text,
            index,
        });
    }
    let (mext, rest) = cut(text);
    let Some(rest) = rest else { unreachable!() };
    let Some(_) = field::value_of(mext, b'm') else {
        return Err(TextFault {
            part: index,
            why: TextWhy::Mandatory,
        });
    };
    Ok(AfterMext {
        has_mext: true,
        rest,
        index: index + 1,
    })
}

/// Whether the text is UTF-8 without a NUL, and is empty or attr-vals with commas between them.
pub(crate) fn are_extensions(text: &[u8]) -> bool
    ensures { IsTrue result ↔ IsExtensionText text.now }
{
    text.is_empty() || (class::is_utf8_text(text) && are_attributes(text))
}

// Whether each part of the text is an attr-val.
fn are_attributes(text: &[u8]) -> bool
    ensures { IsTrue result ↔ AreExtensions (parts text.now) }
{
    let mut left = Some(text);
    while let Some(rest) = left {
        let (part, more) = cut(rest);
        if !is_extension(part) {
            return false;
        }
        left = more;
    }
    true
}
