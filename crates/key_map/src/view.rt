//! A map of texts as an ordered view.
ghost use Rattle.std.specs.Prelude.{◌≤◌};
ghost use Rattle.globals.specs.Cuts.{front_to, IsRun};

use crate::map::KeyMap;
use collation::Text;
use globals::{Cut, OrderedView, Run, stands_under, stands_within};
use key_codec::Key;
use steady_map::Walk;

// The first of the nodes that a walk has left before the end, at most so many.
fn first_nodes<'v>(walk: Walk<'v, Key, Text>, end: Option<Cut<'_>>, most: usize) -> Run<'v>
    requires some { 1 ≤ most }
    requires few { most ≤ 32 }
    ensures { IsRun most result (front_to end.entry walk.entry) }
{
    let mut run = Run::new();
    for (key, value) in walk {
        if !stands_within(end, key) {
            return run;
        }
        run.push(key, value);
        if run.len() == most {
            return run;
        }
    }
    run
}

impl OrderedView for KeyMap<Text> {
    ghost content = { λ m. m };

    fn get(&self, key: &Key) -> Option<&Text> {
        KeyMap::get(self, key)
    }

    fn next(&self, cut: Cut<'_>, end: Option<Cut<'_>>) -> Option<(&Key, &Text)> {
        match self.first_from(cut) {
            Some((key, value)) => {
                if stands_within(end, key) {
                    Some((key, value))
                } else {
                    None
                }
            }
            None => None,
        }
    }

    fn gather(&self, cut: Cut<'_>, end: Option<Cut<'_>>, most: usize) -> Run<'_> {
        first_nodes(self.walk_from(cut), end, most)
    }

    fn prev(&self, cut: Cut<'_>, floor: Option<Cut<'_>>) -> Option<(&Key, &Text)> {
        match self.last_before(cut) {
            Some((key, value)) => {
                if stands_under(floor, key) {
                    None
                } else {
                    Some((key, value))
                }
            }
            None => None,
        }
    }
}
