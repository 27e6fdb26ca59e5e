//! Scouts: the stretch over which a command passes.
ghost use Rattle.std.specs.Prelude.{◌≡◌, true, false, IfSome};
ghost use Rattle.collation.specs.Reference.{Reference};
ghost use Rattle.collation.specs.Database.{Database, is_under};
ghost use Rattle.command.specs.Data.{data_after};
ghost use Rattle.command.specs.declared.access.DataCommand.TheVariants.{Kill as kill_command, Merge as merge_command};
ghost use Rattle.read_ranges.specs.Ranges.{between, AreEarlier};
ghost use Rattle.stretches.specs.Empty.{IsEmpty, IsFree};

use crate::Stretches;
use crate::cuts::{earlier, later};
use collation::{Direction, Name};
use command::{Extent, Look};
use globals::{
    Cut, OrderedView, key_of_start, names_from, order_start, query_start, stands_before,
    taken_from, taken_to,
};
use key_codec::{Key, Place};
use read_ranges::{ReadRange, is_at_most};
use std::alloc::{AllocError, Global};

/// What may lie in the way of look-ups: references in order, most without a value. Advice, on which no contract rests.
pub trait InTheWay {
    /// The first that doesn't stand before the cut.
    fn first_from(&self, cut: Cut<'_>) -> Option<&Key>;

    /// The last that stands before the cut.
    fn last_before(&self, cut: Cut<'_>) -> Option<&Key>;
}

// From how many references in the way on a stretch below a reference is worth while.
const MANY: usize = 8;

/// The stretch in which a $ORDER, of nodes or names, or $QUERY begins, or that begins where one ends in which it begins,
/// if something lies in the way there. It takes in what lies in the way up to the next nodes on both sides, and no more;
/// beyond the last node of all it goes to the end of the global, of names to the end of all. For $DATA the stretch below
/// its reference, up to the first node there, if eight or more lie in the way. None for $GET, and where memory is
/// refused, which is asked for only where a key has over 38 bytes.
pub fn scout<V: OrderedView, W: InTheWay>(
    alloc: Global,
    view: &V,
    way: &W,
    stretches: &Stretches,
    look: &Look,
) -> Option<ReadRange>
    ensures { IfSome result (λ stretch. IsEmpty stretch (V.content view.now)) }
{
    match look {
        Look::Data(key) => scout_below(view, way, stretches, key),
        Look::Get(_, _) => None,
        Look::Name(start, direction) => scout_names(alloc, view, way, stretches, start, *direction),
        Look::Order(place, Direction::Forward) => {
            let cut = order_start(place, Direction::Forward);
            scout_ahead(alloc, view, way, stretches, cut, place)
        }
        Look::Query(place, Direction::Forward) => {
            let cut = query_start(place, Direction::Forward);
            scout_ahead(alloc, view, way, stretches, cut, place)
        }
        Look::Order(place, Direction::Backward) => {
            let cut = order_start(place, Direction::Backward);
            scout_behind(alloc, view, way, stretches, cut, place)
        }
        Look::Query(place, Direction::Backward) => {
            let cut = query_start(place, Direction::Backward);
            scout_behind(alloc, view, way, stretches, cut, place)
        }
    }
}

/// The stretch over which a MERGE passes: the first from a reference in the way below its source on, up to the next
/// node, in which eight or more lie in the way, and which has no reference that may be set. It is looked for behind so
/// many nodes at most. None where memory is refused, which is asked for only where a key has over 38 bytes.
pub fn scout_merge<V: OrderedView, W: InTheWay>(
    view: &V,
    way: &W,
    stretches: &Stretches,
    target: &Key,
    source: &Key,
    copies: usize,
) -> Option<ReadRange>
    ensures { IfSome result (λ stretch. IsEmpty stretch (data_after (merge_command target.now source.now) (V.content view.now))) }
{
    let mut cut = Cut::Before(source);
    for _ in 0..copies.saturating_add(1) {
        match first_within(way, cut, source) {
            Some(first) => {
                let low = stretches.end_from(Cut::Before(first));
                let high = edge_below(view, low, source);
                if are_many(way, low, high) {
                    return beside(view, low, high, target, source);
                }
                cut = behind(high);
            }
            None => return None,
        }
    }
    None
}

// The first in the way from the cut on, if it stands at or under the reference. Advice.
fn first_within<'w, W: InTheWay>(way: &'w W, cut: Cut<'_>, root: &Key) -> Option<&'w Key> {
    match way.first_from(cut) {
        Some(key) => {
            if stands_before(Cut::Past(root), key) {
                Some(key)
            } else {
                None
            }
        }
        None => None,
    }
}

// Behind the node before which the cut stands, or the cut itself. Advice.
fn behind(cut: Cut<'_>) -> Cut<'_> {
    match cut {
        Cut::Before(key) => Cut::After(key),
        _ => cut,
    }
}

// What lies between two cuts, between which no node stands, if it lies beside the target of a MERGE.
fn beside<V: OrderedView>(
    view: &V,
    low: Cut<'_>,
    high: Cut<'_>,
    target: &Key,
    source: &Key,
) -> Option<ReadRange>
    requires { IsFree low high (V.content view.now) }
    ensures { IfSome result (λ stretch. IsEmpty stretch (data_after (merge_command target.now source.now) (V.content view.now))) }
{
    if !lies_beside(low, high, target) {
        return None;
    }
    match ReadRange::new(low, high) {
        Ok(stretch) => Some(stretch),
        Err(AllocError) => None,
    }
}

// Whether nothing at and under the reference lies between two cuts.
fn lies_beside(low: Cut<'_>, high: Cut<'_>, target: &Key) -> bool
    ensures { result ≡ true → (x : Reference) → between low.entry high.entry x ≡ true → is_under target.now x ≡ false }
{
    if is_at_most(high, Cut::Before(target)) {
        return true;
    }
    is_at_most(Cut::Past(target), low)
}

/// The stretch of what a kill takes, which has no node once that is done: where it begins in one that is kept; or, of
/// those that are kept at most one, where eight or more lie in the way there. None where memory is refused, as for
/// `scout`.
pub fn scout_kill<W: InTheWay>(
    way: &W,
    stretches: &Stretches,
    root: &Key,
    extent: Extent,
) -> Option<ReadRange>
    ensures { (m : Database) → IfSome result (λ stretch. IsEmpty stretch (data_after (kill_command root.now extent) m)) }
{
    let low = taken_from(root, extent);
    let high = taken_to(root, extent);
    if !stretches.have(low) && !(stretches.have_room() && are_many(way, low, high)) {
        return None;
    }
    match ReadRange::new(low, high) {
        Ok(stretch) => Some(stretch),
        Err(AllocError) => None,
    }
}

// The stretch of a look-up forward from the cut, within the place's global where no node follows.
fn scout_ahead<V: OrderedView, W: InTheWay>(
    alloc: Global,
    view: &V,
    way: &W,
    stretches: &Stretches,
    cut: Cut<'_>,
    place: &Place,
) -> Option<ReadRange>
    ensures { IfSome result (λ stretch. IsEmpty stretch (V.content view.now)) }
{
    let Ok(name) = place.key().root(alloc) else {
        return None;
    };
    scout_forward(view, way, stretches, cut, Cut::Past(&name))
}

// The stretch of a look-up backward from the cut, within the place's global where no node follows.
fn scout_behind<V: OrderedView, W: InTheWay>(
    alloc: Global,
    view: &V,
    way: &W,
    stretches: &Stretches,
    cut: Cut<'_>,
    place: &Place,
) -> Option<ReadRange>
    ensures { IfSome result (λ stretch. IsEmpty stretch (V.content view.now)) }
{
    let Ok(name) = place.key().root(alloc) else {
        return None;
    };
    scout_backward(view, way, stretches, cut, Cut::Past(&name))
}

// The stretch of a look-up of names.
fn scout_names<V: OrderedView, W: InTheWay>(
    alloc: Global,
    view: &V,
    way: &W,
    stretches: &Stretches,
    start: &Option<Name>,
    direction: Direction,
) -> Option<ReadRange>
    ensures { IfSome result (λ stretch. IsEmpty stretch (V.content view.now)) }
{
    let Ok(start) = key_of_start(alloc, start) else {
        return None;
    };
    let cut = names_from(&start, direction);
    match direction {
        Direction::Forward => scout_forward(view, way, stretches, cut, Cut::End),
        Direction::Backward => scout_backward(view, way, stretches, cut, Cut::End),
    }
}

// The stretch of a look-up forward from the cut. Where no node follows it goes to the last cut at most.
fn scout_forward<V: OrderedView, W: InTheWay>(
    view: &V,
    way: &W,
    stretches: &Stretches,
    cut: Cut<'_>,
    last: Cut<'_>,
) -> Option<ReadRange>
    ensures { IfSome result (λ stretch. IsEmpty stretch (V.content view.now)) }
{
    let from = stretches.end_from(cut);
    let high = next_edge(view, from, last);
    if !is_there(way.first_from(from), from, high) {
        return None;
    }
    let low = low_edge(view, stretches, cut, from);
    narrowed(view, way, low, from, high)
}

// The stretch of a look-up backward from the cut. Where no node follows it goes to the last cut at most.
fn scout_backward<V: OrderedView, W: InTheWay>(
    view: &V,
    way: &W,
    stretches: &Stretches,
    cut: Cut<'_>,
    last: Cut<'_>,
) -> Option<ReadRange>
    ensures { IfSome result (λ stretch. IsEmpty stretch (V.content view.now)) }
{
    let to = stretches.start_before(cut);
    let low = last_edge(view, to);
    if !is_there(way.last_before(to), low, to) {
        return None;
    }
    let high = high_edge(view, stretches, cut, to, last);
    narrowed(view, way, low, to, high)
}

// The stretch below a reference, up to the first node there.
fn scout_below<V: OrderedView, W: InTheWay>(
    view: &V,
    way: &W,
    stretches: &Stretches,
    root: &Key,
) -> Option<ReadRange>
    ensures { IfSome result (λ stretch. IsEmpty stretch (V.content view.now)) }
{
    let low = stretches.end_from(Cut::After(root));
    let high = edge_below(view, low, root);
    if !are_many(way, low, high) {
        return None;
    }
    match ReadRange::new(low, high) {
        Ok(stretch) => Some(stretch),
        Err(AllocError) => None,
    }
}

// Whether many references lie in the way between two cuts. Advice.
fn are_many<'c, W: InTheWay>(way: &'c W, low: Cut<'c>, high: Cut<'_>) -> bool {
    let mut cut = low;
    for _ in 0..MANY {
        match way.first_from(cut) {
            Some(key) => {
                if !stands_before(high, key) {
                    return false;
                }
                cut = Cut::After(key);
            }
            None => return false,
        }
    }
    true
}

// Up to where no node stands from the cut on, at or under the reference.
fn edge_below<'v, V: OrderedView>(view: &'v V, cut: Cut<'_>, root: &'v Key) -> Cut<'v>
    ensures { IsFree cut.entry result (V.content view.now) }
{
    match view.next(cut, Some(Cut::Past(root))) {
        Some((first, _)) => Cut::Before(first),
        None => Cut::Past(root),
    }
}

// Whether there is a reference, and it stands between two cuts. Advice.
fn is_there(found: Option<&Key>, low: Cut<'_>, high: Cut<'_>) -> bool {
    match found {
        Some(key) => !stands_before(low, key) && stands_before(high, key),
        None => false,
    }
}

// Up to where no node stands from the cut on; to the last cut where none follows.
fn next_edge<'v, V: OrderedView>(view: &'v V, cut: Cut<'_>, last: Cut<'v>) -> Cut<'v>
    ensures { IsFree cut.entry result (V.content view.now) }
{
    match view.next(cut, None) {
        Some((found, _)) => Cut::Before(found),
        None => last,
    }
}

// From where on no node stands before the cut.
fn last_edge<'v, V: OrderedView>(view: &'v V, cut: Cut<'_>) -> Cut<'v>
    ensures { IsFree result cut.entry (V.content view.now) }
{
    match view.prev(cut, None) {
        Some((found, _)) => Cut::After(found),
        None => Cut::Start,
    }
}

// From where on no node stands before the end of the stretch in which the cut lies: at that end, or without such a
// stretch behind the last node.
fn low_edge<'v, V: OrderedView>(
    view: &'v V,
    stretches: &Stretches,
    cut: Cut<'_>,
    from: Cut<'v>,
) -> Cut<'v>
    ensures { IsFree result from.entry (V.content view.now) }
{
    if stretches.have(cut) {
        from
    } else {
        last_edge(view, from)
    }
}

// As `low_edge`, on the other side.
fn high_edge<'v, V: OrderedView>(
    view: &'v V,
    stretches: &Stretches,
    cut: Cut<'_>,
    to: Cut<'v>,
    last: Cut<'v>,
) -> Cut<'v>
    ensures { IsFree to.entry result (V.content view.now) }
{
    if stretches.have(cut) {
        to
    } else {
        next_edge(view, to, last)
    }
}

// The part between two ends that has the cut in the middle and what lies in the way, where no node stands between the
// ends.
fn narrowed<V: OrderedView, W: InTheWay>(
    view: &V,
    way: &W,
    low: Cut<'_>,
    middle: Cut<'_>,
    high: Cut<'_>,
) -> Option<ReadRange>
    requires before { IsFree low middle (V.content view.now) }
    requires behind { IsFree middle high (V.content view.now) }
    ensures { IfSome result (λ stretch. IsEmpty stretch (V.content view.now)) }
{
    match ReadRange::new(begin_of(way, low, middle), end_of(way, middle, high)) {
        Ok(stretch) => Some(stretch),
        Err(_) => None,
    }
}

// Where the part begins: at the first in the way from the lower end on, or at the cut in the middle before it.
fn begin_of<'c, W: InTheWay>(way: &'c W, low: Cut<'c>, middle: Cut<'c>) -> Cut<'c>
    ensures { AreEarlier low.entry result }
{
    match way.first_from(low) {
        Some(first) => later(low, earlier(Cut::Before(first), middle)),
        None => low,
    }
}

// Where the part ends: behind the last in the way before the higher end, or at the cut in the middle behind it.
fn end_of<'c, W: InTheWay>(way: &'c W, middle: Cut<'c>, high: Cut<'c>) -> Cut<'c>
    ensures { AreEarlier result high.entry }
{
    match way.last_before(high) {
        Some(last) => earlier(high, later(Cut::Past(last), middle)),
        None => high,
    }
}
