//! The key of a reference.
ghost use Rattle.std.specs.Prelude.{◌≡◌, ◌<◌, ◌≤◌, ◌+◌, ◌++◌, ◌-◌, length, vec_len, vec_capacity, IfErr, IfOk, OnOk, None, map, nat_lt};
ghost use Rattle.std.specs.List.{list_all};
ghost use Rattle.canonic_number.specs.Number.{limit, scale};
ghost use Rattle.collation.specs.Faults.{reference_fault, subscripts_fault};
ghost use Rattle.key_codec.specs.Bounds.{KeepsOrder, IsPrefixOf};
ghost use Rattle.key_codec.specs.Draft.{IsJudged};
ghost use Rattle.key_codec.specs.Key as spec;
ghost use Rattle.key_codec.specs.Key.{long_form, IsFaultless, IsSubscriptWithin};
ghost use Rattle.key_codec.specs.PartsKey.{parts_key};

use crate::{
    ABOVE_ZERO, BELOW_ZERO, END, END_ABOVE_ZERO, END_BELOW_ZERO, MOST_FRACTION_DIGITS, TEXT, ZERO,
};
use canonic_number::{NumberParts, parts};
use collation::{Ref, Text};
use refusal::Refusal;
use std::alloc::{AllocError, Global};

/// The key of a reference, by which references compare as by themselves.
///
/// It begins with another reference's key exactly where this one is that reference or lies under it.
/// Refusals: `OutOfMemory`.
pub fn encode(alloc: Global, reference: &Ref) -> Result<Vec<u8>, Refusal>
    ensures key { IfOk result (λ key. key.items ≡ spec.key_of reference.now) }
    ensures order { IfOk result (λ key. KeepsOrder reference.now key.items) }
    ensures prefix { IfOk result (λ key. IsPrefixOf reference.now key.items) }
    ensures refused { IfErr result (λ refusal. refusal ≡ Refusal.OutOfMemory) }
{
    let key = write_key(alloc, reference, 0)?;
    Ok(key)
}

// The key, with room for as many bytes more.
pub(crate) fn write_key(alloc: Global, reference: &Ref, more: usize) -> Result<Vec<u8>, AllocError>
    ensures key { IfOk result (λ key. key.items ≡ spec.key_of reference.now) }
    ensures form { OnOk result (IsFaultless reference.now) }
{
    write_parts(alloc, reference.name(), reference.subscripts(), more)
}

// The key of this name and these subscripts, with room for as many bytes more.
fn write_parts(
    alloc: Global,
    name: &[u8],
    subscripts: &[Text],
    more: usize,
) -> Result<Vec<u8>, AllocError>
    requires { reference_fault subscripts.now ≡ None }
    ensures key { IfOk result (λ key. key.items ≡ spec.key_of (record { name = name.now; subscripts = subscripts.now })) }
{
    let size = most_key_bytes(name, subscripts).saturating_add(more);
    let mut key = Vec::with_capacity(alloc, size)?;
    key.extend_from_slice(name)?;
    key.push(END)?;
    push_subscripts(&mut key, subscripts)?;
    Ok(key)
}

// How many bytes a key has at most.
fn most_key_bytes(name: &[u8], subscripts: &[Text]) -> usize {
    let mut bytes = name.len().saturating_add(1);
    for subscript in subscripts {
        bytes = bytes.saturating_add(most_subscript_bytes(subscript.as_slice()));
    }
    bytes
}

// A tag, a place of two bytes and an end beside the text's bytes, of which 0 and 1 count twice.
pub(crate) fn most_subscript_bytes(subscript: &[u8]) -> usize {
    let escaped = subscript.iter().filter(|byte| **byte <= 1).count();
    subscript.len().saturating_add(escaped).saturating_add(4)
}

// A copy of these bytes, with room for as many more.
pub(crate) fn roomy_copy(alloc: Global, bytes: &[u8], more: usize) -> Result<Vec<u8>, AllocError>
    ensures { IfOk result (λ copy. copy.items ≡ bytes.now) }
{
    let mut copy = Vec::with_capacity(alloc, bytes.len().saturating_add(more))?;
    copy.extend_from_slice(bytes)?;
    Ok(copy)
}

fn push_subscripts(key: &mut Vec<u8>, subscripts: &[Text]) -> Result<(), AllocError>
    requires { subscripts_fault subscripts.now ≡ None }
    ensures { OnOk result (key.new.items ≡ key.old.items ++ spec.subscripts_key long_form subscripts.now) }
{
    for subscript in subscripts {
        push_subscript(key, subscript.as_slice())?;
    }
    Ok(())
}

pub(crate) fn push_subscript(key: &mut Vec<u8>, subscript: &[u8]) -> Result<(), AllocError>
    requires { IsSubscriptWithin long_form subscript.now }
    ensures { OnOk result (key.new.items ≡ key.old.items ++ spec.subscript_key long_form subscript.now) }
{
    push_judged(key, subscript, parts(subscript))
}

// As `push_subscript`, of a subscript that was judged.
pub(crate) fn push_judged(
    key: &mut Vec<u8>,
    subscript: &[u8],
    number: Option<NumberParts<'_>>,
) -> Result<(), AllocError>
    requires form { IsSubscriptWithin long_form subscript.now }
    requires judged { IsJudged subscript.now number }
    ensures { OnOk result (key.new.items ≡ key.old.items ++ spec.subscript_key long_form subscript.now) }
{
    match number {
        Some(number) => push_number(key, &number),
        None => push_text(key, subscript),
    }
}

fn push_number(key: &mut Vec<u8>, number: &NumberParts<'_>) -> Result<(), AllocError>
    requires whole_short { number.now.whole ≤ limit }
    requires zeros_short { number.now.zeros ≤ scale }
    ensures { OnOk result (key.new.items ≡ key.old.items ++ parts_key long_form number.now) }
{
    let place = number.whole + MOST_FRACTION_DIGITS - number.zeros;
    let Some(room) = (number.first.len() + number.second.len()).checked_add(4) else {
        return Err(AllocError);
    };
    make_room(key, room)?;
    if number.first.is_empty() && number.second.is_empty() {
        key.push_reserved(ZERO);
    } else if number.negative {
        key.push_reserved(BELOW_ZERO);
        put_word(key, 2 * MOST_FRACTION_DIGITS + 1 - place);
        put_falling(key, number.first);
        put_falling(key, number.second);
        key.push_reserved(END_BELOW_ZERO);
    } else {
        key.push_reserved(ABOVE_ZERO);
        put_word(key, place + 2);
        put_rising(key, number.first);
        put_rising(key, number.second);
        key.push_reserved(END_ABOVE_ZERO);
    }
    Ok(())
}

#[inline(never)]
fn grow(key: &mut Vec<u8>, more: usize) -> Result<(), AllocError>
    ensures items { key.new.items ≡ key.old.items }
    ensures room { OnOk result (vec_len key.new + more ≤ vec_capacity key.new) }
{
    key.reserve(more)
}

// Room for so many bytes more.
fn make_room(key: &mut Vec<u8>, more: usize) -> Result<(), AllocError>
    ensures items { key.new.items ≡ key.old.items }
    ensures room { OnOk result (vec_len key.new + more ≤ vec_capacity key.new) }
{
    if more <= key.capacity() - key.len() {
        return Ok(());
    }
    grow(key, more)
}

// The two bytes of a number, the higher first, where there is room for them.
fn put_word(key: &mut Vec<u8>, word: usize)
    requires word { word < 65536 }
    requires room { vec_len key.old + 2 ≤ vec_capacity key.old }
    ensures items { key.new.items ≡ key.old.items ++ spec.two_bytes word }
    ensures len { vec_len key.new ≡ vec_len key.old + 2 }
    ensures capacity { vec_capacity key.old ≤ vec_capacity key.new }
{
    key.push_reserved((word / 256) as u8);
    key.push_reserved((word % 256) as u8);
}

fn put_rising(key: &mut Vec<u8>, digits: &[u8])
    requires { vec_len key.old + length digits.now ≤ vec_capacity key.old }
    ensures items { key.new.items ≡ key.old.items ++ map (λ d. d - 47) digits.now }
    ensures len { vec_len key.new ≡ vec_len key.old + length digits.now }
    ensures capacity { vec_capacity key.old ≤ vec_capacity key.new }
{
    for digit in digits {
        key.push_reserved(digit.saturating_sub(47));
    }
}

fn put_falling(key: &mut Vec<u8>, digits: &[u8])
    requires { vec_len key.old + length digits.now ≤ vec_capacity key.old }
    ensures items { key.new.items ≡ key.old.items ++ map (λ d. 58 - d) digits.now }
    ensures len { vec_len key.new ≡ vec_len key.old + length digits.now }
    ensures capacity { vec_capacity key.old ≤ vec_capacity key.new }
{
    for digit in digits {
        key.push_reserved(58_u8.saturating_sub(*digit));
    }
}

// The two bytes of a number, the higher first.
pub(crate) fn push_word(key: &mut Vec<u8>, word: usize) -> Result<(), AllocError>
    requires { word < 65536 }
    ensures { OnOk result (key.new.items ≡ key.old.items ++ spec.two_bytes word) }
{
    key.push((word / 256) as u8)?;
    key.push((word % 256) as u8)?;
    Ok(())
}

pub(crate) fn push_rising(key: &mut Vec<u8>, digits: &[u8]) -> Result<(), AllocError>
    ensures { OnOk result (key.new.items ≡ key.old.items ++ map (λ d. d - 47) digits.now) }
{
    for digit in digits {
        key.push(digit.saturating_sub(47))?;
    }
    Ok(())
}

pub(crate) fn push_falling(key: &mut Vec<u8>, digits: &[u8]) -> Result<(), AllocError>
    ensures { OnOk result (key.new.items ≡ key.old.items ++ map (λ d. 58 - d) digits.now) }
{
    for digit in digits {
        key.push(58_u8.saturating_sub(*digit))?;
    }
    Ok(())
}

pub(crate) fn push_text(key: &mut Vec<u8>, text: &[u8]) -> Result<(), AllocError>
    ensures { OnOk result (key.new.items ≡ key.old.items ++ spec.text_key text.now) }
{
    key.push(TEXT)?;
    push_escaped(key, text)?;
    key.push(END)?;
    Ok(())
}

// Whether the bytes of a text are their own escapes, as almost always.
fn is_plain(text: &[u8]) -> bool
    ensures { result ≡ list_all (λ b. nat_lt 1 b) text.now }
{
    text.iter().all(|byte| *byte > 1)
}

#[tactic(auto, using(crate::proofs::Plain::plain_escaped))]
fn push_escaped(key: &mut Vec<u8>, text: &[u8]) -> Result<(), AllocError>
    ensures { OnOk result (key.new.items ≡ key.old.items ++ spec.escaped text.now) }
{
    if is_plain(text) {
        key.extend_from_slice(text)?;
        return Ok(());
    }
    for byte in text {
        push_byte(key, *byte)?;
    }
    Ok(())
}

fn push_byte(key: &mut Vec<u8>, byte: u8) -> Result<(), AllocError>
    ensures { OnOk result (key.new.items ≡ key.old.items ++ spec.escape byte) }
{
    if byte == 0 {
        key.push(1)?;
        key.push(1)?;
    } else if byte == 1 {
        key.push(1)?;
        key.push(2)?;
    } else {
        key.push(byte)?;
    }
    Ok(())
}
