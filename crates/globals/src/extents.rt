//! What a kill takes: the members between two cuts.
ghost use Rattle.std.specs.Prelude.{◌≡◌};
ghost use Rattle.collation.specs.Reference.{Reference};
ghost use Rattle.globals.specs.Cuts.{stands_before, taken_start, taken_end, taken_of};

use crate::walk::walk_between;
use crate::{Cut, OrderedView, Walk};
use command::Extent;
use key_codec::Key;

/// Where what a kill takes of a reference and its descendants begins. Takes no memory.
pub fn taken_from(root: &Key, extent: Extent) -> Cut<'_>
    ensures { (x : Reference) → stands_before result x ≡ taken_start extent root.now x }
{
    match extent {
        Extent::All | Extent::Value => Cut::Before(root),
        Extent::Below => Cut::After(root),
    }
}

/// Where what a kill takes of a reference and its descendants ends. Takes no memory.
pub fn taken_to(root: &Key, extent: Extent) -> Cut<'_>
    ensures { (x : Reference) → stands_before result x ≡ taken_end extent root.now x }
{
    match extent {
        Extent::All | Extent::Below => Cut::Past(root),
        Extent::Value => Cut::After(root),
    }
}

/// The walk, in order, over the members that a kill takes. The view is asked for none that lies behind.
pub fn taken<'v, V: OrderedView>(view: &'v V, root: &'v Key, extent: Extent) -> Walk<'v, V>
    ensures { result ≡ taken_of extent root.now (V.content view.now) }
{
    walk_between(view, taken_from(root, extent), Some(taken_to(root, extent)))
}
