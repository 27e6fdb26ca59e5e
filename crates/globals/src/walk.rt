//! Walks over a view, in order.
ghost use Rattle.std.specs.Prelude.{◌≡◌};
ghost use Rattle.std.specs.Iterator.{YieldsFirstBy, item_count};
ghost use Rattle.collation.specs.Answers.{subtree_of};
ghost use Rattle.globals.specs.Cuts.{entries_from, up_to};

use crate::ahead::Ahead;
use crate::{Cut, OrderedView};
use collation::Text;
use key_codec::Key;
use std::marker::Model;

/// A walk over the members of a view, from a cut on and, where it has an end, up to that. It is seen as the list of
/// members that are left. The end is a cut too: what stands before it is walked, what doesn't is neither answered nor
/// asked of the view.
#[derive(Drop)]
pub struct Walk<'v, V: OrderedView> {
    view: &'v V,
    cut: Cut<'v>,
    end: Option<Cut<'v>>,
    ahead: Ahead<'v>,
}

impl<'v, V: OrderedView> Model for Walk<'v, V> {
    ghost use Rattle.std.specs.Prelude.{List, ℕ};
    ghost use Rattle.collation.specs.Reference.{Reference};
    ghost use Rattle.globals.specs.Cuts.{entries_from, up_to, IsFront};

    ghost Value = { List (Reference × List ℕ) };

    ghost view = { λ w. entries_from w.cut (up_to w.end (V.content w.view.now)) };

    ghost invariant = { λ w. IsFront w.ahead (entries_from w.cut (up_to w.end (V.content w.view.now))) };
}

/// The walk, in order, over the members that don't stand before the cut and stand before the end; where there is no end,
/// over all from the cut on. An end that stands before the cut leaves none.
pub fn walk_between<'v, V: OrderedView>(
    view: &'v V,
    cut: Cut<'v>,
    end: Option<Cut<'v>>,
) -> Walk<'v, V>
    ensures { result ≡ entries_from cut.entry (up_to end.entry (V.content view.now)) }
{
    Walk {
        view,
        cut,
        end,
        ahead: Ahead::new(),
    }
}

/// The walk, in order, over all members that don't stand before the cut.
pub fn walk_from<'v, V: OrderedView>(view: &'v V, cut: Cut<'v>) -> Walk<'v, V>
    ensures { result ≡ entries_from cut.entry (V.content view.now) }
{
    walk_between(view, cut, None)
}

/// The walk, in order, over the members at and under the reference. Its end is the cut past them, so that the view is
/// asked for none that lies behind.
pub fn subtree<'v, V: OrderedView>(view: &'v V, root: &'v Key) -> Walk<'v, V>
    ensures { result ≡ subtree_of root.now (V.content view.now) }
{
    walk_between(view, Cut::Before(root), Some(Cut::Past(root)))
}

impl<'v, V: OrderedView> Iterator for Walk<'v, V> {
    type Item = (&'v Key, &'v Text);

    ghost next_gives = { YieldsFirstBy (λ e. (e.0.now, e.1.now)) (λ w. w) };

    ghost remaining = { item_count (λ w. w) };

    fn next(&mut self) -> Option<(&'v Key, &'v Text)> {
        match self.ahead.first(self.view, self.cut, self.end) {
            Some((key, value)) => {
                self.cut = Cut::After(key);
                self.ahead.pass();
                Some((key, value))
            }
            None => None,
        }
    }
}
