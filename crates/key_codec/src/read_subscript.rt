//! One subscript of a key: its text, and the bytes after it.
ghost use Rattle.std.specs.Prelude.{◌≡◌, ◌↔◌, ◌<◌, ◌/◌, ◌%◌, [], ◌∷◌, ◌++◌, List, ℕ, length, map, not, nat_eq, true, IfOk, IfNone, IfSome, IsTrue};
ghost use Rattle.std.specs.List.{list_all};
ghost use Rattle.canonic_number.specs.Number.{scale};
ghost use Rattle.canonic_number.specs.Place.{signed, written_at};
ghost use Rattle.key_codec.specs.Key.{two_bytes};
ghost use Rattle.key_codec.specs.Reading as reading;
ghost use Rattle.key_codec.specs.Reading.{BeginsWith, BeginsWithNone, IsNumberKey, IsOtherText};

use crate::escapes::unescape;
use crate::number_bytes::{are_digit_bytes, is_number_of, place_of, push_digits, push_number};
use crate::read::split_at_end;
use crate::{ABOVE_ZERO, BELOW_ZERO, END, END_ABOVE_ZERO, END_BELOW_ZERO, TEXT, ZERO};
use canonic_number::{LONGEST_SUBSCRIPT, is_canonic};
use collation::Text;
use std::alloc::{AllocError, Global};

// The subscript whose key stands in front, and what follows it.
pub(crate) fn read_subscript(
    alloc: Global,
    bytes: &[u8],
) -> Result<Option<(Text, &[u8])>, AllocError>
    ensures some { IfOk result (λ found. IfSome found (λ p. BeginsWith bytes.now p.0 p.1.now)) }
    ensures none { IfOk result (λ found. IfNone found (BeginsWithNone bytes.now)) }
{
    let [tag, behind @ ..] = bytes else {
        return Ok(None);
    };
    match *tag {
        BELOW_ZERO => read_number(alloc, true, behind),
        ZERO => {
            let text = Text::from_slice(alloc, b"0")?;
            Ok(Some((text, behind)))
        }
        ABOVE_ZERO => read_number(alloc, false, behind),
        TEXT => read_text(alloc, behind),
        _ => Ok(None),
    }
}

pub(crate) fn end_of(negative: bool) -> u8
    ensures { result ≡ reading.number_end negative }
{
    if negative {
        END_BELOW_ZERO
    } else {
        END_ABOVE_ZERO
    }
}

pub(crate) fn take_byte(bytes: &[u8]) -> Option<(u8, &[u8])>
    ensures some { IfSome result (λ p. bytes.now ≡ p.0 ∷ p.1.now) }
    ensures none { IfNone result (bytes.now ≡ []) }
{
    let [first, rest @ ..] = bytes else {
        return None;
    };
    Some((*first, rest))
}

// The number that two bytes stand for, the higher first, and what follows them.
pub(crate) fn take_word(bytes: &[u8]) -> Option<(u16, &[u8])>
    ensures some { IfSome result (λ p. bytes.now ≡ two_bytes p.0 ++ p.1.now) }
    ensures none { IfNone result (length bytes.now < 2) }
{
    let [high, low, rest @ ..] = bytes else {
        return None;
    };
    Some((word_of(*high, *low), rest))
}

fn word_of(high: u8, low: u8) -> u16
    ensures high { result / 256 ≡ high }
    ensures low { result % 256 ≡ low }
{
    u16::from(high) * 256 + u16::from(low)
}

// The number whose key stands in front, less its first byte.
fn read_number(
    alloc: Global,
    negative: bool,
    bytes: &[u8],
) -> Result<Option<(Text, &[u8])>, AllocError>
    ensures some { IfOk result (λ found. IfSome found (λ p. BeginsWith (reading.tag_of negative ∷ bytes.now) p.0 p.1.now)) }
    ensures none { IfOk result (λ found. IfNone found (BeginsWithNone (reading.tag_of negative ∷ bytes.now))) }
{
    let Some((word, behind)) = take_word(bytes) else {
        return Ok(None);
    };
    let Some((front, rest)) = split_at_end(behind, end_of(negative)) else {
        return Ok(None);
    };
    let Some(text) = number_of(alloc, negative, word, front)? else {
        return Ok(None);
    };
    Ok(Some((text, rest)))
}

fn digits_of(alloc: Global, negative: bool, bytes: &[u8]) -> Result<Vec<u8>, AllocError>
    ensures { IfOk result (λ digits. digits.items ≡ map (reading.digit_of negative) bytes.now) }
{
    let mut digits = Vec::new(alloc);
    push_digits(&mut digits, negative, bytes)?;
    Ok(digits)
}

fn number_text(
    alloc: Global,
    negative: bool,
    place: usize,
    bytes: &[u8],
) -> Result<Vec<u8>, AllocError>
    ensures { IfOk result (λ text. text.items ≡ signed negative (written_at scale place (map (reading.digit_of negative) bytes.now))) }
{
    let mut text = Vec::new(alloc);
    push_number(&mut text, negative, place, bytes)?;
    Ok(text)
}

// The number with this number for its place and these bytes of its digits.
fn number_of(
    alloc: Global,
    negative: bool,
    word: u16,
    front: &[u8],
) -> Result<Option<Text>, AllocError>
    requires { list_all (λ b. not (nat_eq b (reading.number_end negative))) front.now ≡ true }
    ensures some { IfOk result (λ found. IfSome found (IsNumberKey negative word front.now)) }
    ensures none { IfOk result (λ found. IfNone found ((s : List ℕ) → IsNumberKey negative word front.now s → ⊥)) }
{
    let Some(place) = place_of(negative, word) else {
        return Ok(None);
    };
    if !are_digit_bytes(front) {
        return Ok(None);
    }
    let digits = digits_of(alloc, negative, front)?;
    let draft = number_text(alloc, negative, place, front)?;
    if !is_number_of(draft.as_slice(), negative, place, digits.as_slice()) {
        return Ok(None);
    }
    let text = Text::from_slice(alloc, draft.as_slice())?;
    Ok(Some(text))
}

// The text whose key stands in front, less its first byte.
fn read_text(alloc: Global, bytes: &[u8]) -> Result<Option<(Text, &[u8])>, AllocError>
    ensures some { IfOk result (λ found. IfSome found (λ p. BeginsWith (5 ∷ bytes.now) p.0 p.1.now)) }
    ensures none { IfOk result (λ found. IfNone found (BeginsWithNone (5 ∷ bytes.now))) }
{
    let Some((front, rest)) = split_at_end(bytes, END) else {
        return Ok(None);
    };
    let Some(draft) = unescape(alloc, front)? else {
        return Ok(None);
    };
    if !is_text(draft.as_slice()) {
        return Ok(None);
    }
    let text = Text::from_slice(alloc, draft.as_slice())?;
    Ok(Some((text, rest)))
}

// Whether the text is a subscript and no canonic number.
fn is_text(text: &[u8]) -> bool
    ensures { IsTrue result ↔ IsOtherText text.now }
{
    !text.is_empty() && text.len() <= LONGEST_SUBSCRIPT && !is_canonic(text)
}
