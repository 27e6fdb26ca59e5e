//! The view of a workspace over a view.
ghost use Rattle.std.specs.Prelude.{◌≡◌, true, false, None, Some, MatchOption};
ghost use Rattle.globals.specs.Entries.{nearest_entry};
ghost use Rattle.collation.specs.Answers.{is_forward};
ghost use Rattle.globals.specs.Cuts.{down_to, up_to};
ghost use Rattle.workspace.specs.Layers.{is_killed};
ghost use Rattle.overlay_view.specs.Merging.{end_by_own, floor_by_own, is_left, lent_node, nearer as nearer_spec, IsKillsCut, IsLastEnd};

use crate::gathering::{gather_left, join};
use collation::{Direction, Text};
use globals::{Cut, OrderedView, Run, taken_from, taken_to};
use key_codec::Key;
use workspace::Workspace;

/// What a transaction sees: its writes over the view of its start.
#[derive(Drop)]
pub struct Overlay<'v, V: OrderedView> {
    workspace: &'v Workspace,
    view: &'v V,
}

impl<'v, V: OrderedView> Overlay<'v, V> {
    /// The workspace's writes laid over the view. Takes no memory.
    pub fn new(workspace: &'v Workspace, view: &'v V) -> Overlay<'v, V>
        ensures workspace { result.workspace.now ≡ workspace.now }
        ensures view { result.view.now ≡ view.now }
    {
        Overlay { workspace, view }
    }
}

// Where the kill ends that takes a reference.
fn end_of_kill<'v>(workspace: &'v Workspace, key: &'v Key) -> Cut<'v>
    ensures { is_killed workspace.now.killed key.now ≡ true → IsKillsCut true workspace.now.killed key.now result }
{
    match workspace.killed_over(key) {
        Some((killed, extent)) => taken_to(killed, extent),
        None => Cut::After(key),
    }
}

// Where it begins.
fn beginning_of_kill<'v>(workspace: &'v Workspace, key: &'v Key) -> Cut<'v>
    ensures { is_killed workspace.now.killed key.now ≡ true → IsKillsCut false workspace.now.killed key.now result }
{
    match workspace.killed_over(key) {
        Some((killed, extent)) => taken_from(killed, extent),
        None => Cut::Before(key),
    }
}

// The first member of the view from the cut on and before the end that isn't killed.
fn first_left<'v, V: OrderedView>(
    workspace: &'v Workspace,
    view: &'v V,
    cut: Cut<'_>,
    end: Option<Cut<'_>>,
) -> Option<(&'v Key, &'v Text)>
    ensures { MatchOption result (nearest_entry true (is_left true cut.entry workspace.now.killed) (up_to end.entry (V.content view.now)) ≡ None)
        (λ e. nearest_entry true (is_left true cut.entry workspace.now.killed) (up_to end.entry (V.content view.now)) ≡ Some (e.0.now, e.1.now)) }
{
    let mut from = cut;
    while let Some((key, value)) = view.next(from, end) {
        if !workspace.is_killed(key) {
            return Some((key, value));
        }
        from = end_of_kill(workspace, key);
    }
    None
}

// The last member of the view before the cut and not before the floor that isn't killed.
fn last_left<'v, V: OrderedView>(
    workspace: &'v Workspace,
    view: &'v V,
    cut: Cut<'_>,
    floor: Option<Cut<'_>>,
) -> Option<(&'v Key, &'v Text)>
    ensures { MatchOption result (nearest_entry false (is_left false cut.entry workspace.now.killed) (down_to floor.entry (V.content view.now)) ≡ None)
        (λ e. nearest_entry false (is_left false cut.entry workspace.now.killed) (down_to floor.entry (V.content view.now)) ≡ Some (e.0.now, e.1.now)) }
{
    let mut from = cut;
    while let Some((key, value)) = view.prev(from, floor) {
        if !workspace.is_killed(key) {
            return Some((key, value));
        }
        from = beginning_of_kill(workspace, key);
    }
    None
}

// Up to where a node below may be nearer than the written one: to that, and without one to the end.
fn end_by<'v>(own: Option<(&'v Key, &'v Text)>, end: Option<Cut<'v>>) -> Option<Cut<'v>>
    ensures { result ≡ end_by_own own.entry end.entry }
{
    match own {
        Some((key, _)) => Some(Cut::Before(key)),
        None => end,
    }
}

// The same backward.
fn floor_by<'v>(own: Option<(&'v Key, &'v Text)>, floor: Option<Cut<'v>>) -> Option<Cut<'v>>
    ensures { result ≡ floor_by_own own.entry floor.entry }
{
    match own {
        Some((key, _)) => Some(Cut::After(key)),
        None => floor,
    }
}

// Up to where the nodes below lie among those of a run of written ones: to the last of these, and without one to the
// end.
fn end_after<'v>(own: &Run<'v>, end: Option<Cut<'v>>) -> Option<Cut<'v>>
    ensures { IsLastEnd own.now end.entry result }
{
    match own.last() {
        Some((key, _)) => Some(Cut::After(key)),
        None => end,
    }
}

// The nearer of a written node and one that is left of the view, in the direction of a walk.
fn nearer<'v>(
    own: Option<(&'v Key, &'v Text)>,
    below: Option<(&'v Key, &'v Text)>,
    direction: Direction,
) -> Option<(&'v Key, &'v Text)>
    ensures { lent_node result ≡ nearer_spec (is_forward direction) (lent_node own.entry) (lent_node below.entry) }
{
    let Some((own_key, own_value)) = own else {
        return below;
    };
    let Some((key, value)) = below else {
        return Some((own_key, own_value));
    };
    let is_before = match direction {
        Direction::Forward => key.cmp(own_key).is_lt(),
        Direction::Backward => own_key.cmp(key).is_lt(),
    };
    if is_before {
        Some((key, value))
    } else {
        Some((own_key, own_value))
    }
}

impl<'v, V: OrderedView> OrderedView for Overlay<'v, V> {
    ghost use Rattle.workspace.specs.Layers.{laid_over};

    ghost content = { λ o. laid_over o.workspace.now (V.content o.view.now) };

    fn get(&self, key: &Key) -> Option<&Text> {
        match self.workspace.written().get(key) {
            Some(value) => Some(value),
            None => {
                match self.workspace.killed_over(key) {
                    Some(_) => None,
                    None => self.view.get(key),
                }
            }
        }
    }

    fn next(&self, cut: Cut<'_>, end: Option<Cut<'_>>) -> Option<(&Key, &Text)> {
        let own = self.workspace.written().next(cut, end);
        let below = first_left(self.workspace, self.view, cut, end_by(own, end));
        nearer(own, below, Direction::Forward)
    }

    fn gather(&self, cut: Cut<'_>, end: Option<Cut<'_>>, most: usize) -> Run<'_> {
        let own = self.workspace.written().gather(cut, end, most);
        let below = gather_left(self.workspace, self.view, cut, end_after(&own, end), most);
        join(own, below, most)
    }

    fn prev(&self, cut: Cut<'_>, floor: Option<Cut<'_>>) -> Option<(&Key, &Text)> {
        let own = self.workspace.written().prev(cut, floor);
        let below = last_left(self.workspace, self.view, cut, floor_by(own, floor));
        nearer(own, below, Direction::Backward)
    }
}
