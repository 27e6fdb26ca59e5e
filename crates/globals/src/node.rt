//! What stands at one reference and under it: `$DATA`.
ghost use Rattle.std.specs.Prelude.{◌≡◌};
ghost use Rattle.std.specs.List.{list_any};
ghost use Rattle.std.specs.FinMap as map;
ghost use Rattle.collation.specs.Levels.{is_below as is_below_spec};
ghost use Rattle.collation.specs.Answers.{data_of};

use crate::levels::is_below;
use crate::{Cut, OrderedView};
use key_codec::Key;

fn has_descendants<V: OrderedView>(view: &V, root: &Key) -> bool
    ensures { result ≡ list_any (is_below_spec root.now) (map.keys (V.content view.now)) }
{
    match view.next(Cut::After(root), Some(Cut::Past(root))) {
        Some((key, _)) => is_below(root, key),
        None => false,
    }
}

/// 1 where the reference has a value, and 10 more where a descendant of it has one. Takes no memory.
///
/// Source: ISO/IEC 11756:1999, $DATA.
#[inline(never)]
pub fn data<V: OrderedView>(view: &V, key: &Key) -> u64
    ensures { result ≡ data_of key.now (V.content view.now) }
{
    let has_value = view.get(key).is_some();
    if has_descendants(view, key) {
        if has_value { 11 } else { 10 }
    } else {
        if has_value { 1 } else { 0 }
    }
}
