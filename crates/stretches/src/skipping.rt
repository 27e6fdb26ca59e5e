//! The view that passes over stretches in which nothing stands.
ghost use Rattle.std.specs.Prelude.{◌≡◌, ◌≤◌, None, Some, MatchOption};
ghost use Rattle.globals.specs.Cuts.{down_to, entries_from, first_from_cut, last_before_cut, up_to, IsRun};
ghost use Rattle.stretches.specs.Empty.{AreEmpty};

use crate::Stretches;
use crate::stretches_kept::MOST;
use collation::Text;
use globals::{Cut, OrderedView, Run};
use key_codec::Key;

/// A view with stretches in which none of its members stands.
#[derive(Drop)]
pub struct Skipping<'v, V: OrderedView> {
    view: &'v V,
    stretches: &'v Stretches,
    ghost empty: { AreEmpty stretches.now (V.content view.now) },
}

impl<'v, V: OrderedView> Skipping<'v, V> {
    /// The view, where no member of it stands in one of the stretches. Takes no memory.
    pub fn new(view: &'v V, stretches: &'v Stretches) -> Skipping<'v, V>
        requires { AreEmpty stretches.now (V.content view.now) }
        ensures view { result.view.now ≡ view.now }
    {
        Skipping { view, stretches }
    }
}

// The first member from the cut on and before the end: one up to the next stretch, and if there is none one behind it.
fn next_past<'v, V: OrderedView>(
    view: &'v V,
    stretches: &'v Stretches,
    cut: Cut<'_>,
    end: Option<Cut<'_>>,
) -> Option<(&'v Key, &'v Text)>
    requires { AreEmpty stretches.now (V.content view.now) }
    ensures { MatchOption result (first_from_cut cut.entry (up_to end.entry (V.content view.now)) ≡ None)
        (λ e. first_from_cut cut.entry (up_to end.entry (V.content view.now)) ≡ Some (e.0.now, e.1.now)) }
{
    let mut from = cut;
    for _ in 0..MOST {
        from = stretches.end_from(from);
        let Some(start) = stretches.next_start(from, end) else {
            return view.next(from, end);
        };
        match view.next(from, Some(start)) {
            Some((key, value)) => return Some((key, value)),
            None => from = start,
        }
    }
    view.next(from, end)
}

// The last member before the cut and not before the floor, as `next_past`.
fn prev_past<'v, V: OrderedView>(
    view: &'v V,
    stretches: &'v Stretches,
    cut: Cut<'_>,
    floor: Option<Cut<'_>>,
) -> Option<(&'v Key, &'v Text)>
    requires { AreEmpty stretches.now (V.content view.now) }
    ensures { MatchOption result (last_before_cut cut.entry (down_to floor.entry (V.content view.now)) ≡ None)
        (λ e. last_before_cut cut.entry (down_to floor.entry (V.content view.now)) ≡ Some (e.0.now, e.1.now)) }
{
    let mut to = cut;
    for _ in 0..MOST {
        to = stretches.start_before(to);
        let Some(end) = stretches.last_end(to, floor) else {
            return view.prev(to, floor);
        };
        match view.prev(to, Some(end)) {
            Some((key, value)) => return Some((key, value)),
            None => to = end,
        }
    }
    view.prev(to, floor)
}

// The first members from the cut on and before the end: those up to the next stretch, and if there are none those behind
// it.
fn gather_past<'v, V: OrderedView>(
    view: &'v V,
    stretches: &'v Stretches,
    cut: Cut<'_>,
    end: Option<Cut<'_>>,
    most: usize,
) -> Run<'v>
    requires empty { AreEmpty stretches.now (V.content view.now) }
    requires some { 1 ≤ most }
    requires few { most ≤ 32 }
    ensures { IsRun most result (entries_from cut.entry (up_to end.entry (V.content view.now))) }
{
    let mut from = cut;
    for _ in 0..MOST {
        from = stretches.end_from(from);
        match stretches.next_start(from, end) {
            Some(start) => {
                let run = view.gather(from, Some(start), most);
                if run.len() > 0 {
                    return run;
                }
                from = start;
            }
            None => return view.gather(from, end, most),
        }
    }
    view.gather(from, end, most)
}

impl<'v, V: OrderedView> OrderedView for Skipping<'v, V> {
    ghost content = { λ s. V.content s.view.now };

    fn get(&self, key: &Key) -> Option<&Text> {
        self.view.get(key)
    }

    fn next(&self, cut: Cut<'_>, end: Option<Cut<'_>>) -> Option<(&Key, &Text)> {
        next_past(self.view, self.stretches, cut, end)
    }

    fn gather(&self, cut: Cut<'_>, end: Option<Cut<'_>>, most: usize) -> Run<'_> {
        gather_past(self.view, self.stretches, cut, end, most)
    }

    fn prev(&self, cut: Cut<'_>, floor: Option<Cut<'_>>) -> Option<(&Key, &Text)> {
        prev_past(self.view, self.stretches, cut, floor)
    }
}
