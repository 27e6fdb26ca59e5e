//! Keys of the old form: subscripts of at most 127 bytes, and a point's place in one byte.
ghost use Rattle.std.specs.Prelude.{◌≡◌, ◌≤◌, ◌++◌, ◌⊎◌, false, true, IfErr, IfNone, IfOk, IfSome, OnOk};
ghost use Rattle.collation.specs.Reference.{Reference};
ghost use Rattle.key_codec.specs.Key as spec;
ghost use Rattle.key_codec.specs.Key.{short_form, IsSubscriptWithin, AreSubscriptsWithin};
ghost use Rattle.key_codec.specs.PartsKey.{parts_key};
ghost use Rattle.key_codec.specs.Short as old;
ghost use Rattle.key_codec.specs.Short.{short_key_of, IsShortReference, KeepsShortOrder};

use crate::lengthen::lengthen;
use crate::read::read_reference;
use crate::write::{push_falling, push_rising, push_text};
use crate::{ABOVE_ZERO, BELOW_ZERO, END, END_ABOVE_ZERO, END_BELOW_ZERO, ZERO};
use canonic_number::{NumberParts, parts};
use collation::{Ref, Text};
use refusal::Refusal;
use std::alloc::{AllocError, Global};

/// The most bytes that a subscript of an old key may have.
pub const LONGEST_SHORT_SUBSCRIPT: usize = 127;

// The most digits of a fraction of such a subscript.
const MOST_SHORT_FRACTION: usize = 126;

/// The old key of a reference, by which references compare as by themselves.
///
/// Refusals: `SubscriptTooLong` where a subscript has over 127 bytes; `OutOfMemory`.
pub fn encode_short(alloc: Global, reference: &Ref) -> Result<Vec<u8>, Refusal>
    ensures key { IfOk result (λ key. key.items ≡ short_key_of reference.now) }
    ensures form { OnOk result (IsShortReference reference.now) }
    ensures order { IfOk result (λ key. KeepsShortOrder reference.now key.items) }
    ensures refused { IfErr result (λ refusal. (refusal ≡ Refusal.OutOfMemory) ⊎ ((refusal ≡ Refusal.SubscriptTooLong) × (old.are_short reference.now.subscripts ≡ false))) }
{
    if !are_short(reference.subscripts()) {
        return Err(Refusal::SubscriptTooLong);
    }
    match write_short(alloc, reference) {
        Ok(key) => Ok(key),
        Err(_) => Err(Refusal::OutOfMemory),
    }
}

/// The reference with these old key bytes; none exactly where no reference has them.
///
/// Refusals: `OutOfMemory`.
pub fn decode_short(alloc: Global, bytes: &[u8]) -> Result<Option<Ref>, Refusal>
    ensures some { IfOk result (λ found. IfSome found (λ r. short_key_of r ≡ bytes.now)) }
    ensures form { IfOk result (λ found. IfSome found IsShortReference) }
    ensures none { IfOk result (λ found. IfNone found ((x : Reference) → IsShortReference x → bytes.now ≡ short_key_of x → ⊥)) }
    ensures refused { IfErr result (λ refusal. refusal ≡ Refusal.OutOfMemory) }
{
    let key = lengthen(alloc, bytes)?;
    let found = read_reference(alloc, key.as_slice())?;
    Ok(only_short(found))
}

// The reference, where its subscripts keep the old limit.
fn only_short(found: Option<Ref>) -> Option<Ref>
    ensures some { IfSome result (λ r. (found ≡ Some r) × (old.are_short r.subscripts ≡ true)) }
    ensures none { IfNone result (IfSome found (λ r. old.are_short r.subscripts ≡ false)) }
{
    match found {
        Some(reference) => {
            if are_short(reference.subscripts()) {
                Some(reference)
            } else {
                drop(reference);
                None
            }
        }
        None => None,
    }
}

fn are_short(subscripts: &[Text]) -> bool
    ensures { result ≡ old.are_short subscripts.now }
{
    subscripts
        .iter()
        .all(|subscript| subscript.len() <= LONGEST_SHORT_SUBSCRIPT)
}

fn write_short(alloc: Global, reference: &Ref) -> Result<Vec<u8>, AllocError>
    requires { old.are_short reference.now.subscripts ≡ true }
    ensures key { IfOk result (λ key. key.items ≡ short_key_of reference.now) }
    ensures form { OnOk result (IsShortReference reference.now) }
{
    let mut key = Vec::new(alloc);
    key.extend_from_slice(reference.name())?;
    key.push(END)?;
    push_short_subscripts(&mut key, reference.subscripts())?;
    Ok(key)
}

fn push_short_subscripts(key: &mut Vec<u8>, subscripts: &[Text]) -> Result<(), AllocError>
    requires { AreSubscriptsWithin short_form subscripts.now }
    ensures { OnOk result (key.new.items ≡ key.old.items ++ spec.subscripts_key short_form subscripts.now) }
{
    for subscript in subscripts {
        push_short_subscript(key, subscript.as_slice())?;
    }
    Ok(())
}

fn push_short_subscript(key: &mut Vec<u8>, subscript: &[u8]) -> Result<(), AllocError>
    requires { IsSubscriptWithin short_form subscript.now }
    ensures { OnOk result (key.new.items ≡ key.old.items ++ spec.subscript_key short_form subscript.now) }
{
    match parts(subscript) {
        Some(number) => push_short_number(key, &number),
        None => push_text(key, subscript),
    }
}

fn push_short_number(key: &mut Vec<u8>, number: &NumberParts<'_>) -> Result<(), AllocError>
    requires whole_short { number.now.whole ≤ 127 }
    requires zeros_short { number.now.zeros ≤ 126 }
    ensures { OnOk result (key.new.items ≡ key.old.items ++ parts_key short_form number.now) }
{
    let place = number.whole + MOST_SHORT_FRACTION - number.zeros;
    if number.first.is_empty() && number.second.is_empty() {
        key.push(ZERO)?;
    } else if number.negative {
        key.push(BELOW_ZERO)?;
        key.push((2 * MOST_SHORT_FRACTION + 1 - place) as u8)?;
        push_falling(key, number.first)?;
        push_falling(key, number.second)?;
        key.push(END_BELOW_ZERO)?;
    } else {
        key.push(ABOVE_ZERO)?;
        key.push((place + 2) as u8)?;
        push_rising(key, number.first)?;
        push_rising(key, number.second)?;
        key.push(END_ABOVE_ZERO)?;
    }
    Ok(())
}
