//! What C calls to make keys. Each of them is declared in `include/vorgushan.h`, with its meaning for a C programmer.
ghost use Rattle.std.specs.Prelude.{◌≡◌, [], true, None, Some, is_some, IfOk, IfErr, OnOk};
ghost use Rattle.std.specs.Option.{MatchOption};
ghost use Rattle.embedded.specs.Outcomes.{outcome_number};
ghost use Rattle.key_codec.specs.Draft.{IsDueOrMemory};
ghost use Rattle.typed_calls.specs.Spelled.{due_in_turn, texts_of};
ghost use Rattle.vorgushan_c.specs.Keys.{AreBytesCopied, IsNamedKey, IsLongerKey, IsSpelledKey};

use crate::draft_handle::VgDraft;
use crate::key_handle::VgKey;
use embedded::{Outcome, copied_as};
use key_codec::{Key, KeyDraft};
use refusal::Refusal;
use std::alloc::Global;
use typed_calls::{LentText, key_below, key_of_name, spell_key};

// Puts a key in the place of what was there. Takes memory only where none was; where that is refused there is none
// still.
fn replace_key(alloc: Global, key: &mut VgKey, made: Key) -> Result<(), Refusal>
    ensures ok { IfOk result (λ _. key.new.inside ≡ Some made) }
    ensures err { IfErr result (λ refusal. (refusal ≡ Refusal.OutOfMemory) × (key.new.inside ≡ key.old.inside)) }
{
    if let Some(mut there) = key.take(alloc) {
        *there = made;
        key.put(there);
        return Ok(());
    }
    match Box::new(alloc, made) {
        Ok(made) => {
            key.put(made);
            Ok(())
        }
        Err(_) => Err(Refusal::OutOfMemory),
    }
}

/// Makes the key of a name without subscripts, in the place of what was there.
///
/// `BadName`, `OutOfMemory`: then what was there is there still.
#[unsafe(no_mangle)]
pub extern "C" fn vorgushan_key_name(alloc: Global, key: &mut VgKey, name: &[u8]) -> u32
    ensures { IsNamedKey name.now key.old.inside key.new.inside result }
{
    match key_of_name(alloc, name) {
        Ok(made) => match replace_key(alloc, key, made) {
            Ok(()) => Outcome::Done.number(),
            Err(refusal) => Outcome::Refused(refusal).number(),
        },
        Err(refusal) => Outcome::Refused(refusal).number(),
    }
}

/// Puts one subscript more behind those of a key.
///
/// `TooManySubscripts`, `EmptySubscript`, `SubscriptTooLong`, `OutOfMemory`, and the key is as it was; `NoKey` where
/// none is.
#[unsafe(no_mangle)]
pub extern "C" fn vorgushan_key_subscript(alloc: Global, key: &mut VgKey, subscript: &[u8]) -> u32
    ensures { IsLongerKey subscript.now key.old.inside key.new.inside result }
{
    let Some(mut there) = key.take(alloc) else {
        return Outcome::NoKey.number();
    };
    match key_below(alloc, &there, subscript) {
        Ok(below) => {
            *there = below;
            key.put(there);
            Outcome::Done.number()
        }
        Err(refusal) => {
            key.put(there);
            Outcome::Refused(refusal).number()
        }
    }
}

// The draft that is there, or a new one.
fn take_draft(alloc: Global, draft: &mut VgDraft) -> Result<Box<KeyDraft>, Refusal>
    ensures refused { IfErr result (λ refusal. refusal ≡ Refusal.OutOfMemory) }
    ensures left { draft.new.inside ≡ None }
{
    match draft.take(alloc) {
        Some(there) => Ok(there),
        None => match Box::new(alloc, KeyDraft::new(alloc)) {
            Ok(made) => Ok(made),
            Err(_) => Err(Refusal::OutOfMemory),
        },
    }
}

// Spells a key in the draft that is there, or a new one, which is there afterwards.
fn spell_in(
    alloc: Global,
    draft: &mut VgDraft,
    name: &[u8],
    subscripts: &[LentText<'_>],
) -> Result<Key, Refusal>
    ensures ok { IfOk result (λ key. (due_in_turn (record { name = name.now; subscripts = [] }) (texts_of subscripts.now) ≡ None) × (key ≡ record { name = name.now; subscripts = texts_of subscripts.now })) }
    ensures err { IfErr result (λ refusal. IsDueOrMemory refusal (due_in_turn (record { name = name.now; subscripts = [] }) (texts_of subscripts.now))) }
    ensures draft { OnOk result (is_some draft.new.inside ≡ true) }
{
    match take_draft(alloc, draft) {
        Ok(mut there) => {
            let spelled = spell_key(alloc, &mut there, name, subscripts);
            draft.put(there);
            spelled
        }
        Err(refusal) => Err(refusal),
    }
}

// Ends the draft where no key is there.
fn end_lone_draft(alloc: Global, key: &mut VgKey, draft: &mut VgDraft)
    ensures key { key.new.inside ≡ key.old.inside }
    ensures draft { MatchOption key.new.inside (draft.new.inside ≡ None) (λ _. draft.new.inside ≡ draft.old.inside) }
{
    match key.take(alloc) {
        Some(there) => key.put(there),
        None => drop(draft.take(alloc)),
    }
}

/// Makes the key of a name and subscripts, in the place of what was there. Takes memory only where no key is there, its
/// draft has to grow, or the key has over 38 bytes.
///
/// Refusals: the first that `vorgushan_key_name`, and then `vorgushan_key_subscript` for one subscript after the other,
/// would tell; `OutOfMemory`: then what was there is there still. Where that was no key, no draft is left either; behind a
/// key that is made one stays.
#[unsafe(no_mangle)]
pub extern "C" fn vorgushan_key_spell(
    alloc: Global,
    key: &mut VgKey,
    draft: &mut VgDraft,
    name: &[u8],
    subscripts: &[LentText<'_>],
) -> u32
    ensures key { IsSpelledKey name.now (texts_of subscripts.now) key.old.inside key.new.inside result }
    ensures draft { key.new.inside ≡ None → draft.new.inside ≡ None }
    ensures kept { result ≡ outcome_number Outcome.Done → is_some draft.new.inside ≡ true }
{
    let spelled = match spell_in(alloc, draft, name, subscripts) {
        Ok(made) => replace_key(alloc, key, made),
        Err(refusal) => Err(refusal),
    };
    match spelled {
        Ok(()) => Outcome::Done.number(),
        Err(refusal) => {
            end_lone_draft(alloc, key, draft);
            Outcome::Refused(refusal).number()
        }
    }
}

/// Copies the bytes of a key, which sort as references do, and tells how many they are.
///
/// `BufferTooShort`, and nothing is copied; `NoKey` where none is there.
#[unsafe(no_mangle)]
pub extern "C" fn vorgushan_key_bytes(
    alloc: Global,
    key: &mut VgKey,
    bytes: &mut [u8],
    wanted: &mut usize,
) -> u32
    ensures copied { MatchOption key.old.inside ((result ≡ outcome_number Outcome.NoKey) × (bytes.new ≡ bytes.old) × (wanted.new ≡ wanted.old))
        (λ reference. AreBytesCopied reference result bytes.old bytes.new wanted.new) }
    ensures key { key.new.inside ≡ key.old.inside }
{
    let Some(there) = key.take(alloc) else {
        return Outcome::NoKey.number();
    };
    let outcome = copied_as(Outcome::Done, there.as_slice(), bytes, wanted);
    key.put(there);
    outcome.number()
}

/// Ends a draft, where one is there: its memory is given back.
#[unsafe(no_mangle)]
pub extern "C" fn vorgushan_draft_end(alloc: Global, draft: &mut VgDraft)
    ensures { draft.new.inside ≡ None }
{
    drop(draft.take(alloc));
}

/// Ends a key: its memory is given back, and none is there.
///
/// `NoKey` where none was.
#[unsafe(no_mangle)]
pub extern "C" fn vorgushan_key_end(alloc: Global, key: &mut VgKey) -> u32
    ensures ended { key.new.inside ≡ None }
    ensures told { MatchOption key.old.inside (result ≡ outcome_number Outcome.NoKey) (λ _. result ≡ outcome_number Outcome.Done) }
{
    match key.take(alloc) {
        Some(there) => {
            drop(there);
            Outcome::Done.number()
        }
        None => Outcome::NoKey.number(),
    }
}
