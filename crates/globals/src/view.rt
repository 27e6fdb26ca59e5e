//! What the data functions need of a database.
ghost use Rattle.std.specs.Prelude.{◌≡◌, ◌≤◌, Some, None, MatchOption};
ghost use Rattle.std.specs.Option.{option_copied, option_map};
ghost use Rattle.std.specs.FinMap as map;
ghost use Rattle.collation.specs.Database.{Database};
ghost use Rattle.collation.specs.Answers.{is_forward};
ghost use Rattle.globals.specs.Cuts.{entries_from, first_from_cut, last_before_cut, next_to, up_to, down_to, IsRun};

use crate::{Cut, Run};
use collation::{Direction, Text};
use key_codec::Key;

/// A database that can be looked up and walked in order, however it is kept.
///
/// An implementor says what it contains, and owes four answers about just that; there are no further laws. What
/// stands before a cut is always a beginning of the members in order (`stands_before-earlier` of
/// `specs/laws/Cuts.antt`), so a partition point serves `next` and `prev` both. Members are held and looked up by their
/// keys, whose bytes compare as the references do, and contracts see the references. Keys and values are lent for as
/// long as the view is.
///
/// A look forward may have an end, and one backward a floor: cuts, beyond which no member is answered. The answer is
/// that over a database from which what lies beyond is left out (`up_to`, `down_to`), so who asks tests nothing more.
/// With `None` it is over the whole one. An end that stands before the cut leaves nothing to answer. A view takes them
/// as a leave to stop: it should visit little that lies beyond.
pub trait OrderedView {
    /// What it contains: a finite map from references to values.
    ghost content: { Self → Database };

    /// The value of a reference, where it has one.
    fn get(&self, key: &Key) -> Option<&Text>
        ensures { option_copied result ≡ map.get (content self.now) key.now };

    /// The first reference with a value that doesn't stand before the cut and stands before the end, with its value;
    /// none where no reference between the two has one.
    fn next(&self, cut: Cut<'_>, end: Option<Cut<'_>>) -> Option<(&Key, &Text)>
        ensures { MatchOption result (first_from_cut cut.entry (up_to end.entry (content self.now)) ≡ None)
            (λ e. first_from_cut cut.entry (up_to end.entry (content self.now)) ≡ Some (e.0.now, e.1.now)) };

    /// Some of the first members that don't stand before the cut and stand before the end, in order, each with its
    /// value: at most `most`, which is 1 to 32, and none only where there is none. A view may give fewer than it is
    /// asked for. Takes no memory.
    fn gather(&self, cut: Cut<'_>, end: Option<Cut<'_>>, most: usize) -> Run<'_>
        requires some { 1 ≤ most }
        requires few { most ≤ 32 }
        ensures { IsRun most result (entries_from cut.entry (up_to end.entry (content self.now))) };

    /// The last reference with a value that stands before the cut and doesn't stand before the floor, with its value;
    /// none where no reference between the two has one.
    fn prev(&self, cut: Cut<'_>, floor: Option<Cut<'_>>) -> Option<(&Key, &Text)>
        ensures { MatchOption result (last_before_cut cut.entry (down_to floor.entry (content self.now)) ≡ None)
            (λ e. last_before_cut cut.entry (down_to floor.entry (content self.now)) ≡ Some (e.0.now, e.1.now)) };
}

// The first key from the cut on, or backward the last before it.
pub(crate) fn key_at<'v, V: OrderedView>(
    view: &'v V,
    cut: Cut<'_>,
    direction: Direction,
) -> Option<&'v Key>
    ensures { option_copied result ≡ option_map (λ e. e.0) (next_to (is_forward direction) cut.entry (V.content view.now)) }
{
    match direction {
        Direction::Forward => match view.next(cut, None) {
            Some((key, _)) => Some(key),
            None => None,
        },
        Direction::Backward => match view.prev(cut, None) {
            Some((key, _)) => Some(key),
            None => None,
        },
    }
}
