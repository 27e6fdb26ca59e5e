//! `$ORDER` of names: `^$GLOBAL`.
ghost use Rattle.std.specs.Prelude.{◌≡◌, ℕ, List, Option, IfOk};
ghost use Rattle.std.specs.Option.{option_copied, option_map};
ghost use Rattle.collation.specs.Answers.{is_forward};
ghost use Rattle.collation.specs.Names.{bare, name_next};
ghost use Rattle.collation.specs.Reference.{Reference};
ghost use Rattle.globals.specs.Cuts.{stands_before, name_start};

use crate::view::key_at;
use crate::{Cut, OrderedView};
use collation::{Direction, Name};
use key_codec::{Key, KeyDraft};
use std::alloc::{AllocError, Global};

/// The key of a name alone.
///
/// Refusals: `AllocError`.
pub fn key_of_name(alloc: Global, name: &Name) -> Result<Key, AllocError>
    ensures { IfOk result (λ key. key ≡ bare name.now) }
{
    let mut draft = KeyDraft::new(alloc);
    draft.begin(name.as_slice())?;
    match draft.key(alloc) {
        Ok(key) => Ok(key),
        Err(_) => Err(AllocError),
    }
}

/// The key of a start, where there is one.
///
/// Refusals: `AllocError`.
pub fn key_of_start(alloc: Global, start: &Option<Name>) -> Result<Option<Key>, AllocError>
    ensures { IfOk result (λ key. key ≡ option_map bare start.now) }
{
    match start {
        Some(name) => {
            let key = key_of_name(alloc, name)?;
            Ok(Some(key))
        }
        None => Ok(None),
    }
}

/// Where `$ORDER` of names starts: past the name and all under it, backward before it, and without one at the beginning,
/// backward at the end. Takes no memory.
pub fn names_from(start: &Option<Key>, direction: Direction) -> Cut<'_>
    ensures { (name : Option (List ℕ)) → start.now ≡ option_map bare name → (x : Reference) → stands_before result x ≡ name_start (is_forward direction) name x }
{
    match direction {
        Direction::Forward => match start {
            Some(key) => Cut::Past(key),
            None => Cut::Start,
        },
        Direction::Backward => match start {
            Some(key) => Cut::Before(key),
            None => Cut::End,
        },
    }
}

/// A member of the nearest name beyond a start, by the key of the start's name, lent from the view. None where no such
/// name has a node. Takes no memory.
pub fn member_beyond<'v, V: OrderedView>(
    view: &'v V,
    start: &Option<Key>,
    direction: Direction,
) -> Option<&'v Key>
    ensures { (name : Option (List ℕ)) → start.now ≡ option_map bare name → option_map (λ r. r.name) (option_copied result) ≡ name_next (is_forward direction) name (V.content view.now) }
{
    key_at(view, names_from(start, direction), direction)
}

// The name of a key alone.
fn root_of(alloc: Global, found: Option<&Key>) -> Result<Option<Key>, AllocError>
    ensures { IfOk result (λ root. root ≡ option_map (λ r. bare r.name) (option_copied found.entry)) }
{
    match found {
        Some(key) => {
            let root = key.root(alloc)?;
            Ok(Some(root))
        }
        None => Ok(None),
    }
}

/// The nearest name that a member has beyond the start, by its key; forward without a start the first, and backward the
/// last. None where there is none. No member need have the start's name.
///
/// Refusals: `AllocError`.
///
/// Source: ISO/IEC 11756:1999, $ORDER of ^$GLOBAL.
#[inline(never)]
pub fn next_name<V: OrderedView>(
    alloc: Global,
    view: &V,
    start: &Option<Name>,
    direction: Direction,
) -> Result<Option<Key>, AllocError>
    ensures { IfOk result (λ found. found ≡ option_map bare (name_next (is_forward direction) start.now (V.content view.now))) }
{
    let from = key_of_start(alloc, start)?;
    root_of(alloc, member_beyond(view, &from, direction))
}
