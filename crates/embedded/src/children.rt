//! The children of a reference, many at a time.
ghost use Rattle.std.specs.Prelude.{◌≡◌, ◌++◌, ◌≤◌, ◌<◌, [], true, length, IfErr, IfOk, OnOk};
ghost use Rattle.std.specs.Int.{w64, to_le_bytes};
ghost use Rattle.std.specs.Option.{MatchOption};
ghost use Rattle.collation.specs.Answers.{order_of};
ghost use Rattle.collation.specs.Levels.{below, parent_of};
ghost use Rattle.collation.specs.Reference.{Spot};
ghost use Rattle.collation.specs.declared.direction.Direction.TheVariants.{Forward};
ghost use Rattle.command.specs.Data.{look_refusal};
ghost use Rattle.command.specs.declared.access.Look.TheVariants.{Order};
ghost use Rattle.globals.specs.Answering.{IsRuleOrMemory};
ghost use Rattle.embedded.specs.Children.{child_record, value_at, AreChildren, IsChildrenCall, IsFull, IsGathered, IsGatheredOrNone};
ghost use Rattle.embedded.specs.Followed.{IsFollowed, IsUnderWay};

use crate::copied::copied_as;
use crate::moments::seen;
use crate::{Embedded, Outcome};
use collation::{Direction, Text};
use globals::{OrderedView, data, order};
use key_codec::{Key, Place};
use refusal::Refusal;
use std::alloc::{AllocError, Global};

// A child: its subscript, and its key.
#[derive(Drop)]
struct Child {
    subscript: Text,
    key: Key,
}

// The child next to a place of this level.
fn next_child<V: OrderedView>(
    alloc: Global,
    view: &V,
    level: &Key,
    place: &Place,
) -> Result<Option<Child>, Refusal>
    requires { parent_of place.now ≡ level.now }
    ensures ok { IfOk result (λ found. MatchOption found (order_of true place.now (V.content view.now) ≡ [])
        (λ child. (child.subscript ≡ order_of true place.now (V.content view.now)) × (0 < length child.subscript) × (child.key ≡ below level.now child.subscript))) }
    ensures err { IfErr result (λ refusal. IsRuleOrMemory refusal (look_refusal (Order place.now Forward))) }
{
    match order(alloc, view, place, Direction::Forward) {
        Ok(Some(subscript)) => {
            if subscript.is_empty() {
                return Ok(None);
            }
            let key = level.below(alloc, &subscript)?;
            Ok(Some(Child { subscript, key }))
        }
        Ok(None) => Ok(None),
        Err(refusal) => Err(refusal),
    }
}

// The bytes of the value at a key, none where it has none.
fn value_bytes<'v, V: OrderedView>(view: &'v V, key: &Key) -> &'v [u8]
    ensures { result.now ≡ value_at key.now (V.content view.now) }
{
    match view.get(key) {
        Some(value) => value.as_slice(),
        None => &[],
    }
}

// A record's parts behind what stands in the text.
fn push_parts(
    subscript: &[u8],
    value: &[u8],
    number: u64,
    text: &mut Vec<u8>,
) -> Result<(), AllocError>
    ensures { OnOk result (text.new.items ≡ text.old.items ++ (to_le_bytes w64 (length subscript.now) ++ (to_le_bytes w64 (length value.now) ++ (to_le_bytes w64 number ++ (subscript.now ++ value.now))))) }
{
    text.extend_from_slice(&(subscript.len() as u64).to_le_bytes())?;
    text.extend_from_slice(&(value.len() as u64).to_le_bytes())?;
    text.extend_from_slice(&number.to_le_bytes())?;
    text.extend_from_slice(subscript)?;
    text.extend_from_slice(value)?;
    Ok(())
}

// A child's record behind what stands in the text.
fn push_child<V: OrderedView>(
    view: &V,
    level: &Key,
    child: &Child,
    text: &mut Vec<u8>,
) -> Result<(), AllocError>
    requires { child.now.key ≡ below level.now child.now.subscript }
    ensures { OnOk result (text.new.items ≡ text.old.items ++ child_record level.now (V.content view.now) child.now.subscript) }
{
    let value = value_bytes(view, &child.key);
    let number = data(view, &child.key);
    push_parts(child.subscript.as_slice(), value, number, text)
}

// Puts the record of the child next to a place behind the others, where there is room for it, and answers its place.
fn push_next<V: OrderedView>(
    alloc: Global,
    view: &V,
    level: &Key,
    place: &Place,
    room: usize,
    text: &mut Vec<u8>,
) -> Result<Option<Place>, Refusal>
    requires level { parent_of place.now ≡ level.now }
    requires low { length text.old.items ≤ room }
    ensures ok { IfOk result (λ found. MatchOption found (IsFull level.now place.now (V.content view.now) room (length text.old.items) × (text.new.items ≡ text.old.items))
        (λ next. IsFollowed level.now place.now (V.content view.now) room next text.old.items text.new.items)) }
    ensures err { IfErr result (λ refusal. IsRuleOrMemory refusal (look_refusal (Order place.now Forward))) }
{
    let Some(child) = next_child(alloc, view, level, place)? else {
        return Ok(None);
    };
    let before = text.len();
    push_child(view, level, &child, text)?;
    let Child { subscript, key } = child;
    drop(subscript);
    if text.len() > room {
        text.truncate(before);
        return Ok(None);
    }
    Ok(Some(Place::new(key, false)))
}

// The records of further children behind those that stand in the text, as many as there is room for.
fn push_children<V: OrderedView>(
    alloc: Global,
    view: &V,
    level: &Key,
    first: Place,
    room: usize,
    text: &mut Vec<u8>,
) -> Result<(), Refusal>
    requires level { parent_of first ≡ level.now }
    requires low { length text.old.items ≤ room }
    ensures ok { (p : Spot) → IsUnderWay level.now p (V.content view.now) first text.old.items → OnOk result (IsGathered level.now p (V.content view.now) room text.new.items) }
    ensures err { IfErr result (λ refusal. refusal ≡ Refusal.OutOfMemory) }
{
    let mut place = first;
    'children: loop {
        match push_next(alloc, view, level, &place, room, text) {
            Ok(Some(next)) => place = next,
            Ok(None) => return Ok(()),
            Err(_) => return Err(Refusal::OutOfMemory),
        }
    }
}

// The records of the children beyond a place in the place of what stands in the text: the first, and as many more as
// there is room for. Whether there is one.
fn gather_children<V: OrderedView>(
    alloc: Global,
    view: &V,
    place: &Place,
    room: usize,
    text: &mut Vec<u8>,
) -> Result<bool, Refusal>
    ensures ok { IfOk result (λ some. IsGatheredOrNone some (parent_of place.now) place.now (V.content view.now) room text.new.items) }
    ensures err { IfErr result (λ refusal. IsRuleOrMemory refusal (look_refusal (Order place.now Forward))) }
{
    text.clear();
    let level = place.level_key(alloc)?;
    let Some(child) = next_child(alloc, view, &level, place)? else {
        return Ok(false);
    };
    push_child(view, &level, &child, text)?;
    let Child { subscript, key } = child;
    drop(subscript);
    if text.len() > room {
        return Ok(true);
    }
    push_children(alloc, view, &level, Place::new(key, false), room, text)?;
    Ok(true)
}

// Copies the children of a view beyond a place.
fn copy_next_children<V: OrderedView>(
    alloc: Global,
    view: &V,
    place: &Place,
    text: &mut Vec<u8>,
    buffer: &mut [u8],
    wanted: &mut usize,
) -> Outcome
    ensures { AreChildren (parent_of place.now) place.now (V.content view.now) result buffer.old buffer.new wanted.new }
{
    *wanted = 0;
    match gather_children(alloc, view, place, buffer.len(), text) {
        Ok(true) => copied_as(Outcome::Done, text, buffer, wanted),
        Ok(false) => Outcome::AtEnd,
        Err(refusal) => Outcome::Refused(refusal),
    }
}

impl Embedded {
    /// Copies the next children at the level of a place, in the database of a moment, as many as the buffer has room
    /// for, and tells how long their records are together. They are those that $ORDER answers one after the other from
    /// the place on; of each its subscript, its value, and what $DATA tells of it. What lies below them is passed over.
    /// It is no command, as `look`.
    ///
    /// `AtEnd` where no child is left; `BufferTooShort` where the next alone is longer than the buffer, and then its
    /// length is told, at most 33,046; `NeedSubscript` where the place has no subscript; `OutOfMemory`; `BadJob` and
    /// `NoTransaction` as `look`: then nothing is copied.
    pub fn copy_children(
        &mut self,
        alloc: Global,
        moment: u64,
        place: &Place,
        buffer: &mut [u8],
        wanted: &mut usize,
    ) -> Outcome
        ensures { IsChildrenCall moment place.now self.old self.new result buffer.old buffer.new wanted.new }
    {
        match seen(&self.core, moment) {
            Ok(view) => copy_next_children(alloc, &view, place, &mut self.text, buffer, wanted),
            Err(refusal) => {
                *wanted = 0;
                Outcome::Refused(refusal)
            }
        }
    }
}
