//! `$QUERY`.
ghost use Rattle.std.specs.Prelude.{◌≡◌};
ghost use Rattle.std.specs.Option.{option_copied};
ghost use Rattle.collation.specs.Answers.{is_forward, query_of};

use crate::OrderedView;
use crate::levels::has_name;
use crate::starts::query_start;
use crate::view::key_at;
use collation::Direction;
use key_codec::{Key, Place};

/// The nearest reference of the place's name with a value that stands beyond the place, lent from the view.
///
/// References are walked depth first, a parent before its descendants. An empty last subscript starts before all
/// siblings, after their parent, and backward after them and all under them. Takes no memory.
///
/// Source: ISO/IEC 11756:1999, $QUERY. The backward direction: docs/RULES.md, "Profile".
#[inline(never)]
pub fn query<'v, V: OrderedView>(
    view: &'v V,
    place: &Place,
    direction: Direction,
) -> Option<&'v Key>
    ensures { option_copied result ≡ query_of (is_forward direction) place.now (V.content view.now) }
{
    match key_at(view, query_start(place, direction), direction) {
        Some(key) => {
            if has_name(place.key(), key) {
                Some(key)
            } else {
                None
            }
        }
        None => None,
    }
}
