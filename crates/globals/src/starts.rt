//! Where $ORDER and $QUERY start.
ghost use Rattle.std.specs.Prelude.{◌≡◌};
ghost use Rattle.collation.specs.Reference.{Reference};
ghost use Rattle.collation.specs.Answers.{is_forward};
ghost use Rattle.globals.specs.Cuts.{stands_before, order_start as order_start_spec, query_start as query_start_spec};

use crate::Cut;
use collation::Direction;
use key_codec::Place;

/// Where `$ORDER` starts: an open place's descendants are its level, a closed one's are passed over. Takes no memory.
///
/// Source: ISO/IEC 11756:1999, $ORDER.
pub fn order_start(place: &Place, direction: Direction) -> Cut<'_>
    ensures { (x : Reference) → stands_before result x ≡ order_start_spec (is_forward direction) place.now x }
{
    match direction {
        Direction::Forward => {
            if place.is_open() {
                Cut::After(place.key())
            } else {
                Cut::Past(place.key())
            }
        }
        Direction::Backward => {
            if place.is_open() {
                Cut::Past(place.key())
            } else {
                Cut::Before(place.key())
            }
        }
    }
}

/// Where `$QUERY` starts: directly after the place's reference, and backward before it, or for an open place after all
/// under it. Takes no memory.
///
/// Source: ISO/IEC 11756:1999, $QUERY. The backward direction: docs/RULES.md, "Profile".
pub fn query_start(place: &Place, direction: Direction) -> Cut<'_>
    ensures { (x : Reference) → stands_before result x ≡ query_start_spec (is_forward direction) place.now x }
{
    match direction {
        Direction::Forward => Cut::After(place.key()),
        Direction::Backward => order_start(place, direction),
    }
}
