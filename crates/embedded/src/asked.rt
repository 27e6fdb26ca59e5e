//! What $ORDER, $DATA and $QUERY answer at a moment, without a command.
ghost use Rattle.std.specs.Prelude.{◌≡◌};
ghost use Rattle.collation.specs.Answers.{data_of};
ghost use Rattle.embedded.specs.Looks.{IsOrder, IsOrderAt, IsDataAt, IsQuery, IsQueryAt};

use crate::copied::copied_as;
use crate::moments::seen;
use crate::{Embedded, Outcome};
use collation::Direction;
use globals::{OrderedView, data, order, query};
use key_codec::{Key, Place};
use refusal::Refusal;
use std::alloc::Global;

/// Copies the subscript that $ORDER answers on a view, and tells how long it is; none where no other follows.
///
/// `NeedSubscript` where the place has no subscript, `OutOfMemory`, `BufferTooShort`: then nothing is copied.
pub fn copy_sibling<V: OrderedView>(
    alloc: Global,
    view: &V,
    place: &Place,
    direction: Direction,
    buffer: &mut [u8],
    wanted: &mut usize,
) -> Outcome
    ensures { IsOrder place.now direction (V.content view.now) result buffer.old buffer.new wanted.new }
{
    *wanted = 0;
    match order(alloc, view, place, direction) {
        Ok(Some(subscript)) => copied_as(Outcome::Done, subscript.as_slice(), buffer, wanted),
        Ok(None) => copied_as(Outcome::Done, &[], buffer, wanted),
        Err(refusal) => Outcome::Refused(refusal),
    }
}

/// Moves a key to the node that $QUERY answers on a view.
///
/// `AtEnd` where no node is left, `OutOfMemory`: then the key is as it was.
pub fn move_to_found<V: OrderedView>(
    view: &V,
    place: &Place,
    direction: Direction,
    key: &mut Key,
) -> Outcome
    ensures { IsQuery place.now direction (V.content view.now) key.old key.new result }
{
    match query(view, place, direction) {
        Some(found) => match found.clone() {
            Ok(found) => {
                *key = found;
                Outcome::Done
            }
            Err(_) => Outcome::Refused(Refusal::OutOfMemory),
        },
        None => Outcome::AtEnd,
    }
}

impl Embedded {
    /// Copies the subscript that $ORDER answers at a place, in the database of a moment, and tells how long it is; none
    /// where no other follows. It is no command, as `look`.
    ///
    /// `NeedSubscript` where the place has no subscript, `OutOfMemory`, `BufferTooShort`; `BadJob` and `NoTransaction`
    /// as `look`: then nothing is copied.
    pub fn look_order(
        &self,
        alloc: Global,
        moment: u64,
        place: &Place,
        direction: Direction,
        buffer: &mut [u8],
        wanted: &mut usize,
    ) -> Outcome
        ensures { IsOrderAt moment self.now.core.machine place.now direction result buffer.old buffer.new wanted.new }
    {
        match seen(&self.core, moment) {
            Ok(view) => copy_sibling(alloc, &view, place, direction, buffer, wanted),
            Err(refusal) => {
                *wanted = 0;
                Outcome::Refused(refusal)
            }
        }
    }

    /// Tells 1 where the reference has a value in the database of a moment, and 10 more where a descendant has one. It
    /// is no command, as `look`. Takes no memory.
    ///
    /// `BadJob` and `NoTransaction` as `look`: then 0 is told.
    pub fn look_data(&self, moment: u64, key: &Key, number: &mut u64) -> Outcome
        ensures { IsDataAt moment self.now.core.machine key.now result number.new }
    {
        match seen(&self.core, moment) {
            Ok(view) => {
                *number = data(&view, key);
                Outcome::Done
            }
            Err(refusal) => {
                *number = 0;
                Outcome::Refused(refusal)
            }
        }
    }

    /// Moves a key to the node that $QUERY answers from a place, in the database of a moment. It is no command, as
    /// `look`.
    ///
    /// `AtEnd` where no node is left, `OutOfMemory`; `BadJob` and `NoTransaction` as `look`: then the key is as it was.
    pub fn look_query(
        &self,
        moment: u64,
        place: &Place,
        direction: Direction,
        key: &mut Key,
    ) -> Outcome
        ensures { IsQueryAt moment self.now.core.machine place.now direction key.old key.new result }
    {
        match seen(&self.core, moment) {
            Ok(view) => move_to_found(&view, place, direction, key),
            Err(refusal) => Outcome::Refused(refusal),
        }
    }
}
