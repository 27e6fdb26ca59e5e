//! Where what $ORDER and $QUERY read begins and ends.
ghost use Rattle.std.specs.Prelude.{◌≡◌, not, IfOk};
ghost use Rattle.collation.specs.Reference.{Reference};
ghost use Rattle.collation.specs.Levels.{parent_of};
ghost use Rattle.globals.specs.Cuts.{stands_before};
ghost use Rattle.globals.specs.Fitting.{IsSiblingOrNone};
ghost use Rattle.serial.specs.ReadRanges.{is_from_level, level_end as level_end_spec};

use collation::Text;
use globals::Cut;
use key_codec::{Key, Place};
use std::alloc::{AllocError, Global};

// The sibling that $ORDER answered, or the reference above the level where it answered none.
pub(crate) fn level_end(alloc: Global, place: &Place, answer: &Text) -> Result<Key, AllocError>
    requires { IsSiblingOrNone place.now answer.now }
    ensures { IfOk result (λ key. key ≡ level_end_spec (parent_of place.now) answer.now) }
{
    let level = place.level_key(alloc)?;
    if answer.is_empty() {
        return Ok(level);
    }
    level.below(alloc, answer)
}

// Where $ORDER backward ends: before the sibling that it answered, or after the reference above the level.
pub(crate) fn level_start<'k>(end: &'k Key, answer: &Text) -> Cut<'k>
    ensures { (parent x : Reference) → end.now ≡ level_end_spec parent answer.now → not (stands_before result x) ≡ is_from_level parent answer.now x }
{
    if answer.is_empty() {
        Cut::After(end)
    } else {
        Cut::Before(end)
    }
}
